// A draft of names that is put in place, in stages.
ghost use Rattle.std.specs.Prelude.{◌≡◌, ◌<◌, ℕ, Some, IfOk, OnErr, OnOk, IsSome, length};
ghost use Rattle.std.specs.FinMap as map;
ghost use Rattle.std.specs.List.{AllByRecursion};
ghost use Rattle.name_table.specs.Drafts.{HasKnownWords, IsReady, names_drafted, sheets_drafted, with_changes, without};
ghost use Rattle.name_table.specs.Listed.{listed};
ghost use Rattle.name_table.specs.Named.{KeepsSheets, names_of, words_of};
ghost use Rattle.name_table.specs.Scopes.{with_holder};
ghost use Rattle.name_table.specs.internal.Fresh.{AddsNone, KeepsOthers, fresh_at, fresh_of, with_added};

use crate::draft::NameDraft;
use crate::key::NameKey;
use crate::names::Names;
use std::alloc::AllocError;
use std::collections::BTreeMap;

/// A draft that is being put in place: all memory that it wants is taken.
#[derive(Drop)]
pub struct BegunDraft {
    pub(crate) draft: NameDraft,
    // The names that were added so that they have a holder.
    pub(crate) fresh: Vec<(NameKey, u64)>,
}

impl Names {
    /// Begins to put a draft in place: each name that it gives a holder, and that has none, gets this holder. [`Names::finish`] puts
    /// the rest in place, without memory, and [`Names::cancel`] takes these names away again. For want of memory the table is as
    /// it was. The words of the changed names are known. Costs the changed names, each with the logarithm of the number of names.
    pub fn begin(&mut self, draft: NameDraft) -> Result<BegunDraft, AllocError>
        requires known { HasKnownWords (words_of self.old) draft }
        ensures draft { IfOk result (λ begun. begun.draft ≡ draft) }
        ensures ready { IfOk result (λ begun. IsReady begun.draft self.new) }
        ensures finished { OnOk result (names_drafted draft (names_of self.new) ≡ names_drafted draft (names_of self.old)) }
        ensures cancelled { IfOk result (λ begun. without begun.fresh.items (names_of self.new) ≡ names_of self.old) }
        ensures err { OnErr result (names_of self.new ≡ names_of self.old) }
        ensures words { words_of self.new ≡ words_of self.old }
        ensures sheets { KeepsSheets self.old self.new }
    {
        let fresh = self.fresh(&draft)?;
        match self.add_all(&fresh) {
            Ok(()) => Ok(BegunDraft { draft, fresh }),
            Err(error) => {
                self.remove_all(&fresh);
                Err(error)
            }
        }
    }

    /// Gives a begun draft up, so that the table is as it was. Costs the names that it would add, each with the logarithm of the number
    /// of names.
    pub fn cancel(&mut self, begun: BegunDraft)
        ensures names { names_of self.new ≡ without begun.fresh.items (names_of self.old) }
        ensures words { words_of self.new ≡ words_of self.old }
        ensures sheets { KeepsSheets self.old self.new }
    {
        self.remove_all(&begun.fresh);
    }

    /// Puts a begun draft in place. Costs the changed names, each with the logarithm of the number of names, and where the list of
    /// sheets changes the number of sheets.
    pub fn finish(&mut self, begun: BegunDraft)
        requires { IsReady begun.draft self.old }
        ensures names { names_of self.new ≡ names_drafted begun.draft (names_of self.old) }
        ensures sheets { listed self.new ≡ sheets_drafted begun.draft (listed self.old) }
        ensures words { words_of self.new ≡ words_of self.old }
    {
        let NameDraft { names, sheets, .. } = begun.draft;
        self.place(names);
        if let Some(sheets) = sheets {
            self.sheets = sheets;
        }
    }
    // The names that the draft gives a holder and that have none, with these holders.
    fn fresh(&self, draft: &NameDraft) -> Result<Vec<(NameKey, u64)>, AllocError>
        ensures { IfOk result (λ fresh. fresh.items ≡ fresh_of (names_of self.now) draft.now.names.entries) }
    {
        let mut fresh = Vec::new(self.alloc);
        'names: for (key, holder) in &draft.names {
            if let Some(name) = self.fresh_name(*key, *holder) {
                fresh.push(name)?;
            }
        }
        Ok(fresh)
    }

    // A name with the holder that it gets, if it gets one and has none.
    fn fresh_name(&self, key: NameKey, holder: Option<u64>) -> Option<(NameKey, u64)>
        ensures { result ≡ fresh_at (names_of self.now) (key, holder) }
    {
        if self.holder(key.scope, key.word).is_some() {
            return None;
        }
        let holder = holder?;
        Some((key, holder))
    }

    // Adds the names, whose words are known. For want of memory some of them may have been added.
    fn add_all(&mut self, list: &[(NameKey, u64)]) -> Result<(), AllocError>
        requires { AllByRecursion (λ e. e.0.word < length (words_of self.old)) list.now }
        ensures added { OnOk result (names_of self.new ≡ with_added list.now (names_of self.old)) }
        ensures others { KeepsOthers list.now (names_of self.old) (names_of self.new) }
        ensures words { words_of self.new ≡ words_of self.old }
        ensures sheets { KeepsSheets self.old self.new }
    {
        'names: for (key, holder) in list {
            self.add(key.scope, key.word, *holder)?;
        }
        Ok(())
    }

    // Takes the names away.
    fn remove_all(&mut self, list: &[(NameKey, u64)])
        ensures names { names_of self.new ≡ without list.now (names_of self.old) }
        ensures words { words_of self.new ≡ words_of self.old }
        ensures sheets { KeepsSheets self.old self.new }
    {
        'names: for (key, _) in list {
            self.remove(key.scope, key.word);
        }
    }

    // Makes the changes, the last one first, none of which adds a name.
    fn place(&mut self, changes: BTreeMap<NameKey, Option<u64>>)
        requires { AddsNone changes (names_of self.old) }
        ensures names { names_of self.new ≡ with_changes changes.entries (names_of self.old) }
        ensures words { words_of self.new ≡ words_of self.old }
        ensures sheets { KeepsSheets self.old self.new }
    {
        let mut changes = changes;
        'names: while let Some((key, holder)) = changes.pop_last() {
            self.change(key, holder);
        }
    }

    // Gives a name that has a holder another one, or takes a name away.
    fn change(&mut self, key: NameKey, holder: Option<u64>)
        requires { (h : ℕ) → holder ≡ Some h → IsSome (map.get (names_of self.old) key) }
        ensures names { names_of self.new ≡ with_holder key holder (names_of self.old) }
        ensures words { words_of self.new ≡ words_of self.old }
        ensures sheets { KeepsSheets self.old self.new }
    {
        match holder {
            Some(holder) => self.overwrite(key, holder),
            None => {
                self.remove(key.scope, key.word);
            }
        }
    }

    // Gives a name that has a holder another one, which takes no memory.
    fn overwrite(&mut self, key: NameKey, holder: u64)
        requires { IsSome (map.get (names_of self.old) key) }
        ensures names { names_of self.new ≡ map.insert (names_of self.old) key holder }
        ensures words { words_of self.new ≡ words_of self.old }
        ensures sheets { KeepsSheets self.old self.new }
    {
        match self.add(key.scope, key.word, holder) {
            Ok(()) => (),
            Err(_) => unreachable!(),
        }
    }
}
