//! `Vars`, the map from names to texts.
ghost use Rattle.std.specs.Prelude.{◌≡◌, ◌≢◌, ◌≤◌, ◌<◌, ◌↔◌, ℕ, List, [], length, true, false};
ghost use Rattle.std.specs.Prelude.{Some, None, IfSome, IfOk, OnOk, OnErr, IsErrOf};
ghost use Rattle.std.specs.Option.{option_copied};
ghost use Rattle.wap_base.specs.Names.{is_name};
ghost use Rattle.wap_base.specs.Outcome.{Meets};
ghost use Rattle.wap_base.specs.Utf8.{utf8_len};
ghost use Rattle.wap_vars.specs.Variables.{text_of, updated, removed, AreVars};
ghost use Rattle.wap_vars.specs.Setting.{set_in};

use crate::{TEXT_LIMIT, VAR_LIMIT, VarFault};
use std::alloc::Global;
use std::collections::BTreeMap;
use std::marker::Model;
use wap_base::{Name, NoMemory, Text, is_name};

/// The variables of the browser (WAP-191, section 10.3). A contract sees the pairs of a name and
/// its text, in ascending order of names.
#[derive(Drop)]
pub struct Vars {
    alloc: Global,
    texts: BTreeMap<Text, Text>,
}

impl Model for Vars {
    ghost use Rattle.std.specs.Prelude.{List, ℕ};

    ghost Value = { List (List ℕ × List ℕ) };

    ghost use Rattle.wap_vars.specs.Variables.{AreVars};

    ghost view = { λ vars. vars.texts.entries };

    ghost invariant = { λ vars. AreVars vars.texts.entries };
}

/// Whether a text is a name.
fn names_variable(text: &Text) -> bool
    ensures { result ≡ is_name text.now }
{
    is_name(text.as_str().as_bytes())
}

impl Vars {
    /// No variables yet, and the allocator for those to come.
    pub fn new(alloc: Global) -> Vars
        ensures { result ≡ [] }
    {
        Vars {
            alloc,
            texts: BTreeMap::new(alloc),
        }
    }

    /// The text of a variable that is set.
    pub fn get(&self, name: &Name) -> Option<&Text>
        ensures value { option_copied result ≡ text_of self.now name.now }
        ensures short { IfSome result (λ text. utf8_len text.now ≤ TEXT_LIMIT) }
    {
        self.texts.get(name.text())
    }

    /// Sets a variable to a text. On a fault nothing changes.
    pub fn set(&mut self, name: &Text, value: Text) -> Result<(), VarFault>
        ensures set { OnOk result (self.new ≡ updated self.old name.now value) }
        ensures kept { OnErr result (self.new ≡ self.old) }
        ensures exact { Meets VarFault.NoMemory (λ _. self.new) result
            (set_in self.old name.now value) }

        // What each fault says. A bad name is reported even when out of memory.
        ensures bad_name { IsErrOf result VarFault.BadName ↔ (is_name name.now ≡ false) }
        ensures too_long { (bytes : ℕ) → IsErrOf result (VarFault.TooLong bytes)
            → (bytes ≡ utf8_len value) × (TEXT_LIMIT < bytes) }
        ensures full { IsErrOf result VarFault.Full
            → (length self.old ≡ VAR_LIMIT) × (text_of self.old name.now ≡ None) }

        // What is read afterwards.
        ensures here { OnOk result (text_of self.new name.now ≡ Some value) }
        ensures elsewhere { OnOk result
            ((other : List ℕ) → other ≢ name.now
            → text_of self.new other ≡ text_of self.old other) }
    {
        if !names_variable(name) {
            return Err(VarFault::BadName);
        }
        let bytes = value.len();
        if bytes > TEXT_LIMIT {
            return Err(VarFault::TooLong { bytes });
        }
        if let Some(text) = self.texts.get_mut(name) {
            *text = value;
            return Ok(());
        }
        if self.texts.len() >= VAR_LIMIT {
            return Err(VarFault::Full);
        }
        self.texts.insert(name.copy(self.alloc)?, value)?;
        Ok(())
    }

    /// Unsets a variable, if it is set.
    pub fn remove(&mut self, name: &Name)
        ensures removed { self.new ≡ removed self.old name.now }
        ensures here { text_of self.new name.now ≡ None }
        ensures elsewhere { (other : List ℕ) → other ≢ name.now
            → text_of self.new other ≡ text_of self.old other }
    {
        let _ = self.texts.remove(name.text());
    }

    /// Unsets all variables.
    pub fn clear(&mut self)
        ensures { self.new ≡ [] }
    {
        self.texts.clear();
    }

    /// The rules that all variables keep, for those who rest a proof on them. It does nothing.
    pub fn keep_rules(&self)
        ensures { AreVars self.now }
    {
        let _few = self.texts.len();
    }

    /// A copy of the variables, in ascending order of names.
    pub fn entries(&self, alloc: Global) -> Result<Vec<(Text, Text)>, NoMemory>
        ensures same { IfOk result (λ pairs. pairs.items ≡ self.now) }
        ensures ordered { AreVars self.now }
    {
        let mut pairs = Vec::new(alloc);
        for (name, text) in &self.texts {
            pairs.push((name.copy(alloc)?, text.copy(alloc)?))?;
        }
        Ok(pairs)
    }
}
