// What exports are handed as numbers: counts, and settings.
#![tactic(auto)]

ghost use Rattle.std.specs.Prelude.{◌≡◌, get_or};
ghost use Rattle.settings.specs.Settings.{counts_at, type_of, settings_of};

use base::at_or;
use style::{Settings, StyleType};
use valid::Counts;

fn count_at(counts: &[u64], i: usize) -> usize
    ensures { result ≡ get_or counts.now i 0 }
{
    at_or(counts, i, 0) as usize
}

// The counts, in the order in which a load stores them; one that is not there is 0.
pub fn counts_at(counts: &[u64]) -> Counts
    ensures { result ≡ counts_at counts.now }
{
    Counts {
        rules: count_at(counts, 0),
        selectors: count_at(counts, 1),
        tests: count_at(counts, 2),
        properties: count_at(counts, 3),
        numbers: count_at(counts, 4),
    }
}

#[tactic(auto, unfolding(base::specs::Choice::pick, crate::specs::Settings::type_of))]
pub fn type_of(k: u8) -> StyleType
    ensures { result ≡ type_of k }
{
    if k == 1 {
        return StyleType::MapsMe;
    }
    StyleType::Josm
}

pub fn settings_of(k: u8, font: &[f64], for_labels: bool) -> Settings
    ensures { result ≡ settings_of k font.now for_labels }
{
    Settings {
        style_type: type_of(k),
        font_multiplier: font.first().copied(),
        for_labels,
    }
}
