// Values that are taken along where a structural operation is taken back.
ghost use Rattle.std.specs.Prelude.{◌≡◌, ◌||◌, ℕ, false, if◌then◌else◌, IfOk, List, OnOk, Some};
ghost use Rattle.cell_addr.specs.Sheets.{same_name};
ghost use Rattle.shift_core.specs.Opposite.{opposite_of};
ghost use Rattle.shift_core.specs.Sound.{IsSound};
ghost use Rattle.dep_graph.specs.Nodes.{has, items_of};
ghost use Rattle.dep_graph.specs.declared.node.Node.{Node as NodeSeen};

use crate::values::Values;
use cell_addr::Text;
use dep_graph::{Node, Nodes};
use folded_key::FoldedKey;
use indexmap::IndexSet;
use restored_values::probe;
use shift_core::Shift;
use std::alloc::AllocError;
use std::mem;

impl Values {
    ghost use Rattle.kept_values.specs.Shifted.{FollowsBack, FollowsReturn, MarksBack, MarksReturn};
    ghost use Rattle.kept_values.specs.Values.{asks_in, kept_in, links_in, loses_in, marks_in, seeks_in, unlinked_in};
    ghost use Rattle.kept_values.specs.internal.TakenAlong.{AreProbed};

    /// Takes the values back along a structural operation, which its opposite takes back: links and values go back with their
    /// nodes, so that they follow the workbook before it where they followed the one after it. Marked are then the nodes that
    /// were, those whose formulas the operation's probe bends, or that ask where a reference is or have lost one, and what is
    /// touched: each filled cell of a block that goes back and of where that goes; and the cells that the operation had removed,
    /// which come back. What was marked before but linked since needn't be linked once more.
    ///
    /// For want of memory only a part goes back, and the values are of no more use. Costs what [`Values::shift`] does, and a
    /// look-up or two for each removed cell and for each formula that has lost a reference, all of which are marked then.
    pub fn take_back(
        &mut self,
        s: &Shift,
        back: &Shift,
        touched: &[Node],
        removed: &[Node],
    ) -> Result<(), AllocError>
        requires sound { IsSound s.now }
        requires opposite { opposite_of s.now ≡ Some back.now }
        ensures follows { OnOk result (FollowsBack s.now back.now touched.now removed.now self.old self.new) }
        ensures marks { OnOk result (MarksBack s.now back.now touched.now removed.now self.old self.new) }
    {
        let suspects = self.probed(s)?;
        self.gather(touched, suspects.items())?;
        self.gather_losing()?;
        self.move_seeking(back)?;
        self.carry(back)?;
        self.mark_all(removed)
    }

    /// Takes the values back over a dropped sheet, which comes back: links and values stay as they are, so that they follow the
    /// workbook with the sheet where they followed the one without it. Marked are then the nodes that were, these nodes, which are
    /// the cells and the names of the sheet that come back, and those whose formulas ask where a reference is or have lost one.
    ///
    /// For want of memory only some are marked, and the values are of no more use. Costs a look-up or two for each node that is
    /// marked then.
    pub fn bring_back(&mut self, nodes: &[Node]) -> Result<(), AllocError>
        ensures follows { OnOk result ((sheet : ℕ) → FollowsReturn sheet nodes.now self.old self.new) }
        ensures marks { OnOk result (MarksReturn nodes.now self.old self.new) }
    {
        self.gather(nodes, &[])?;
        self.gather_losing()
    }

    // The nodes that are linked to what the operation's probe bends.
    fn probed(&self, s: &Shift) -> Result<Nodes, AllocError>
        requires { IsSound s.now }
        ensures { IfOk result (λ nodes. AreProbed s.now (links_in self.now) (items_of nodes)) }
    {
        match probe(s) {
            Some(probe) => self.graph.bent(&probe),
            None => Nodes::new(self.alloc),
        }
    }

    // Marks what has lost a reference, of which none is noted any more.
    fn gather_losing(&mut self) -> Result<(), AllocError>
        ensures marks { OnOk result ((a : NodeSeen) → has a (marks_in self.new) ≡ (has a (marks_in self.old) || loses_in self.old a)) }
        ensures unlinked { OnOk result ((a : NodeSeen) → has a (unlinked_in self.new) ≡ (has a (unlinked_in self.old) || loses_in self.old a)) }
        ensures losing { OnOk result ((a : NodeSeen) → loses_in self.new a ≡ false) }
        ensures asking { asks_in self.new ≡ asks_in self.old }
        ensures seeking { seeks_in self.new ≡ seeks_in self.old }
        ensures links { links_in self.new ≡ links_in self.old }
        ensures kept { kept_in self.new ≡ kept_in self.old }
    {
        let losing = mem::replace(&mut self.noted.losing, IndexSet::new(self.alloc));
        self.mark_all(losing.as_slice())
    }

    /// Marks each node whose formula uses this word, in some case of its ASCII letters, where it finds no name, of which none is noted
    /// under the word any more; what is noted under other words stays. For want of memory some are marked, and the values are of no
    /// more use. Costs a look-up of the word, and one for each of these nodes.
    pub fn mark_seeking(&mut self, word: &str) -> Result<(), AllocError>
        ensures marks { OnOk result ((a : NodeSeen) → has a (marks_in self.new) ≡ (has a (marks_in self.old) || seeks_in self.old word.now a)) }
        ensures unlinked { OnOk result ((a : NodeSeen) → has a (unlinked_in self.new) ≡ (has a (unlinked_in self.old) || seeks_in self.old word.now a)) }
        ensures seeking { OnOk result ((other : List ℕ) (a : NodeSeen) → seeks_in self.new other a ≡ (if same_name word.now other then false else seeks_in self.old other a)) }
        ensures asking { asks_in self.new ≡ asks_in self.old }
        ensures losing { loses_in self.new ≡ loses_in self.old }
        ensures links { links_in self.new ≡ links_in self.old }
        ensures kept { kept_in self.new ≡ kept_in self.old }
    {
        let key = FoldedKey::Own(Text::from_str(self.alloc, word)?);
        match self.noted.seeking.swap_remove(&key) {
            Some(seeking) => self.mark_all(seeking.as_slice()),
            None => Ok(()),
        }
    }
}
