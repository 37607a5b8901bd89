// The nodes that a structural operation touches.
ghost use Rattle.std.specs.Prelude.{◌≡◌, ◌<◌, ◌+◌, OnOk, IfOk};
ghost use Rattle.shift_core.specs.Sound.{IsSound};
ghost use Rattle.dep_graph.specs.internal.Nets.{Grows};
ghost use Rattle.dep_graph.specs.internal.Numbers.{count_of};
ghost use Rattle.dep_graph.specs.internal.Touches.{AddsBetween, AddsKnown, AreInside, FindsTouched};

use crate::net::Net;
use indexmap::IndexSet;
use near_hash::NearHash;
use shift_core::Shift;
use std::alloc::AllocError;

impl Net {
    // Keeps all nodes where operations find them.
    pub(crate) fn keep_fresh(&mut self) -> Result<(), AllocError>
        ensures { Grows self.old self.new }
    {
        'numbers: for number in self.touches.kept..self.nodes.len() {
            self.keep_next(number)?;
        }
        Ok(())
    }

    // Keeps the node of the first number that isn't kept.
    fn keep_next(&mut self, number: usize) -> Result<(), AllocError>
        requires next { self.old.touches.kept ≡ number }
        requires inside { number < count_of self.old.nodes }
        ensures nodes { self.new.nodes ≡ self.old.nodes }
        ensures links { self.new.links ≡ self.old.links }
        ensures files { self.new.files ≡ self.old.files }
        ensures next { OnOk result (self.new.touches.kept ≡ number + 1) }
    {
        let key = self.nodes.key(number);
        self.touches.keep_key(self.nodes.lines(), key, number)?;
        self.touches.kept = number + 1;
        Ok(())
    }

    // The numbers of all nodes that the operation touches, and maybe others.
    pub(crate) fn touched(&self, s: &Shift) -> Result<IndexSet<usize, NearHash>, AllocError>
        requires { IsSound s.now }
        ensures found { IfOk result (λ found. FindsTouched s.now self.now.nodes found.keys) }
        ensures inside { IfOk result (λ found. AreInside self.now.nodes found.keys) }
    {
        let touched = self.touches.index.touched(self.nodes.lines(), s)?;
        let mut found = IndexSet::with_hasher(self.alloc, NearHash::new());
        self.add_known(&mut found, &touched)?;
        self.add_known(&mut found, self.touches.odd.as_slice())?;
        add_between(&mut found, self.touches.kept, self.nodes.len())?;
        Ok(found)
    }

    // Adds those of the numbers that are numbers of keys.
    fn add_known(
        &self,
        found: &mut IndexSet<usize, NearHash>,
        numbers: &[usize],
    ) -> Result<(), AllocError>
        ensures { OnOk result (AddsKnown self.now.nodes numbers.now found.old.keys found.new.keys) }
    {
        'numbers: for number in numbers {
            if *number < self.nodes.len() {
                found.insert(*number)?;
            }
        }
        Ok(())
    }
}

// Adds the numbers from the first to before the end.
pub(crate) fn add_between(
    numbers: &mut IndexSet<usize, NearHash>,
    first: usize,
    end: usize,
) -> Result<(), AllocError>
    ensures { OnOk result (AddsBetween first end numbers.old.keys numbers.new.keys) }
{
    'numbers: for number in first..end {
        numbers.insert(number)?;
    }
    Ok(())
}
