// The layers of a walk: found by name, made, and assigned to.
#![tactic(auto)]

ghost use Rattle.std.specs.Prelude.{◌≡◌, ◌+◌, ◌<◌};
ghost use Rattle.walk.specs.Rows.{below, numbers_in};
ghost use Rattle.walk.specs.Selectors.{layer_in};
ghost use Rattle.walk.specs.Run.{told, assign_at, assign_all, seek, new_row, touch_of, step_of};
ghost use Rattle.walk.specs.Walking.{given, names, layers};

use crate::Walk;
use crate::maps::{Layers, ROW, selector_at};
use crate::names::{is_layer, layer_name};
use crate::rows::{Properties, assign_range};
use base::refusal::{TOO_MANY_LAYERS, TOO_MANY_NAMES};
use table::Tables;

// The layer of this name among the first n.
pub fn find_named(tables: &Tables, t: &[u32], n: Layers, name: &[u8]) -> Option<Layers>
    ensures { result ≡ below n (seek (layer_in tables.now.bundle.now tables.now.selectors.now) t.now name.now 0 n) }
{
    let i = (0..n.n).find(|&i| is_layer(tables, selector_at(t, i), name))?;
    Some(Layers { n: i })
}

impl Walk<'_> {
    // A selector that matched: its layer found or made, and its rule's properties assigned.
    pub fn step(&mut self, s: u32, ps: Properties) -> Result<(), usize>
        ensures step { told result self.new.count self.new.rows.now ≡ step_of (names self.old) (layers self.old) self.old.rows.now self.old.count s (numbers_in ps) }
        ensures same { given self.new ≡ given self.old }
    {
        if let Some(j) = self.find(s) {
            return self.touch(j, s, ps);
        }
        let n = self.count;
        if n.n < 32 {
            self.make(s);
            return self.touch(n, s, ps);
        }
        Err(TOO_MANY_LAYERS)
    }

    // Selector s's layer.
    fn find(&self, s: u32) -> Option<Layers>
        ensures { result ≡ below self.now.count (seek (layers self.now) self.now.rows.now (layers self.now s) 0 self.now.count) }
    {
        let name = layer_name(self.tables, s);
        find_named(self.tables, self.rows, self.count, name)
    }

    // Makes a layer, named by selector s: a copy of the row of `*`, if there is one.
    fn make(&mut self, s: u32)
        requires { self.old.count < 32 }
        ensures row { self.new.rows.now ≡ new_row (layers self.old) self.old.rows.now self.old.count s }
        ensures count { self.new.count ≡ self.old.count + 1 }
        ensures same { given self.new ≡ given self.old }
    {
        let n = self.count;
        let at = n.n * ROW;
        if let Some(j) = find_named(self.tables, self.rows, n, b"*") {
            self.rows.copy_within(j.n * ROW..(j.n + 1) * ROW, at);
        }
        self.rows[at] = s;
        self.count = Layers { n: n.n + 1 };
    }

    // What selector s, of layer j, assigns: to all layers, if it is of `*`.
    fn touch(&mut self, j: Layers, s: u32, ps: Properties) -> Result<(), usize>
        ensures touch { told result self.new.count self.new.rows.now ≡ touch_of (names self.old) (layers self.old) self.old.rows.now self.old.count j s (numbers_in ps) }
        ensures same { given self.new ≡ given self.old }
    {
        if is_layer(self.tables, s, b"*") {
            return self.assign_all(ps);
        }
        self.assign(j, ps)
    }

    // Assigns properties to all layers.
    fn assign_all(&mut self, ps: Properties) -> Result<(), usize>
        ensures all { told result self.new.count self.new.rows.now ≡ assign_all (names self.old) self.old.rows.now self.old.count 0 self.old.count (numbers_in ps) }
        ensures same { given self.new ≡ given self.old }
    {
        for i in 0..self.count.n {
            self.assign(Layers { n: i }, ps)?;
        }
        Ok(())
    }

    // Assigns properties to layer i.
    fn assign(&mut self, i: Layers, ps: Properties) -> Result<(), usize>
        ensures assign { told result self.new.count self.new.rows.now ≡ assign_at (names self.old) self.old.rows.now self.old.count i (numbers_in ps) }
        ensures count { self.new.count ≡ self.old.count }
        ensures same { given self.new ≡ given self.old }
    {
        let h = i.n * ROW + 1;
        let a = h + 1;
        let e = a + 129;
        let t = &mut *self.rows;
        let count = t[h] as usize;
        let k = assign_range(self.tables, &mut t[a..e], count, ps);
        if k < 129 {
            t[h] = k as u32;
            return Ok(());
        }
        Err(TOO_MANY_NAMES)
    }
}
