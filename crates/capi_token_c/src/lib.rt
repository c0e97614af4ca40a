// The export of the tokenizer for C and Rust: capi_token's function under its own name, with its promise.
#![tactic(auto)]

ghost use Rattle.token.specs.Step.{step_of};
ghost use Rattle.cursor.specs.Cursor.{cursor};
ghost use Rattle.capi_token.specs.Told.{Answered, told_step};

#[unsafe(no_mangle)]
pub extern "C" fn mapcss_next_token(
    s: &[u8],
    at: usize,
    line: usize,
    character: usize,
    newline: bool,
    out: &mut [u64],
    number: &mut [f64],
) -> u64
    ensures { Answered (told_step (step_of s.now (cursor at line character newline))) result out.old out.new number.old number.new }
{
    capi_token::mapcss_next_token(s, at, line, character, newline, out, number)
}
