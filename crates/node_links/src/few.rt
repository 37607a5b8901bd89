// Links between nodes, redirected where few of them get other targets.
ghost use Rattle.std.specs.Prelude.{◌≡◌, ◌<◌, ◌++◌, ℕ, [], Some, None, true, length, filter_map, option_map, unwrap_or, IfOk, IsSome, OnOk, OnErr};
ghost use Rattle.std.specs.BTreeMap as tree;
ghost use Rattle.std.specs.Option.{option_to_list};
ghost use Rattle.std.specs.Ordering.{nat_cmp};
ghost use Rattle.needs_order.specs.Needs.{has};
ghost use Rattle.node_links.specs.Nodes.{needs_of, node_count};
ghost use Rattle.node_links.specs.Redirect.{AreRedirected, few_target, is_among};
ghost use Rattle.node_links.specs.internal.Few.{AreAround, AreChanges, AreOwn, AreRows, GathersFew, IsMarked, StillMarked, list_at, listed_at, own_list};

use crate::change::{Change, change_all};
use crate::links::Links;
use crate::node_list::NodeList;
use std::alloc::{AllocError, Global};
use std::collections::BTreeMap;

impl Links {
    /// Redirects the links between nodes where few of them get other targets: what a node was linked to, its target is
    /// linked to afterwards, by their targets; links from or to a node without a target go. A node that isn't among the
    /// few is its own target. Several nodes may have one target, which then has the links of all of them. In which order a
    /// node's needs stand, and how often, isn't told. Where there is no memory all stays as it was. Costs about the number
    /// of the few, of their users, and of the needs of all these, whatever the number of nodes.
    pub fn redirect_few(&mut self, few: &BTreeMap<usize, Option<usize>>) -> Result<(), AllocError>
        requires nodes { (a : ℕ) → is_among few.now a ≡ true → a < node_count self.old }
        requires targets { (a t : ℕ) → few_target few.now a ≡ Some t → a < node_count self.old → t < node_count self.old }
        ensures ok { OnOk result (AreRedirected (few_target few.now) (needs_of self.old) (needs_of self.new)) }
        ensures err { OnErr result ((a : ℕ) → needs_of self.new a ≡ needs_of self.old a) }
        ensures count { node_count self.new ≡ node_count self.old }
    {
        let mut lists = self.marked_few(few)?;
        self.gather_few(&mut lists, few)?;
        self.link_few(lists)
    }

    // For each node whose links change, and for its target, a list of the targets of what it needs, where it stays its own
    // target, and else an empty one.
    fn marked_few(
        &self,
        few: &BTreeMap<usize, Option<usize>>,
    ) -> Result<BTreeMap<usize, NodeList>, AllocError>
        requires nodes { (a : ℕ) → is_among few.now a ≡ true → a < node_count self.now }
        requires targets { (a t : ℕ) → few_target few.now a ≡ Some t → a < node_count self.now → t < node_count self.now }
        ensures own { IfOk result (AreOwn few.now (needs_of self.now)) }
        ensures rows { IfOk result (AreRows (node_count self.now)) }
        ensures around { IfOk result (λ lists. (a : ℕ) → is_among few.now a ≡ true → AreAround few.now (needs_of self.now) lists a) }
    {
        let mut lists = BTreeMap::new(self.alloc);
        'few: for (node, _) in few {
            self.mark_around(&mut lists, few, *node)?;
        }
        Ok(lists)
    }

    // Gives a list to the node, to each that needs it, and to their targets.
    fn mark_around(
        &self,
        lists: &mut BTreeMap<usize, NodeList>,
        few: &BTreeMap<usize, Option<usize>>,
        node: usize,
    ) -> Result<(), AllocError>
        requires node { node < node_count self.now }
        requires targets { (a t : ℕ) → few_target few.now a ≡ Some t → a < node_count self.now → t < node_count self.now }
        requires own { AreOwn few.now (needs_of self.now) lists.old }
        requires rows { AreRows (node_count self.now) lists.old }
        ensures own { OnOk result (AreOwn few.now (needs_of self.now) lists.new) }
        ensures rows { OnOk result (AreRows (node_count self.now) lists.new) }
        ensures still { OnOk result (StillMarked lists.old lists.new) }
        ensures around { OnOk result (AreAround few.now (needs_of self.now) lists.new node) }
    {
        self.mark(lists, few, node)?;
        let users = self.users(node)?;
        'users: for user in &users {
            self.mark(lists, few, *user)?;
        }
        Ok(())
    }

    // Gives a list to the node and to its target.
    fn mark(
        &self,
        lists: &mut BTreeMap<usize, NodeList>,
        few: &BTreeMap<usize, Option<usize>>,
        node: usize,
    ) -> Result<(), AllocError>
        requires node { node < node_count self.now }
        requires targets { (a t : ℕ) → few_target few.now a ≡ Some t → a < node_count self.now → t < node_count self.now }
        requires own { AreOwn few.now (needs_of self.now) lists.old }
        requires rows { AreRows (node_count self.now) lists.old }
        ensures own { OnOk result (AreOwn few.now (needs_of self.now) lists.new) }
        ensures rows { OnOk result (AreRows (node_count self.now) lists.new) }
        ensures still { OnOk result (StillMarked lists.old lists.new) }
        ensures marked { OnOk result (IsMarked few.now lists.new node) }
    {
        self.mark_row(lists, few, node)?;
        match few_target(few, node) {
            Some(target) => self.mark_row(lists, few, target),
            None => Ok(()),
        }
    }

    // Gives a list to the node, unless it has one.
    fn mark_row(
        &self,
        lists: &mut BTreeMap<usize, NodeList>,
        few: &BTreeMap<usize, Option<usize>>,
        node: usize,
    ) -> Result<(), AllocError>
        requires node { node < node_count self.now }
        requires own { AreOwn few.now (needs_of self.now) lists.old }
        requires rows { AreRows (node_count self.now) lists.old }
        ensures own { OnOk result (AreOwn few.now (needs_of self.now) lists.new) }
        ensures rows { OnOk result (AreRows (node_count self.now) lists.new) }
        ensures still { OnOk result (StillMarked lists.old lists.new) }
        ensures marked { OnOk result (IsSome (list_at lists.new node)) }
    {
        if lists.contains_key(&node) {
            return Ok(());
        }
        let list = self.own_list(few, node)?;
        lists.insert(node, list)?;
        Ok(())
    }

    // The targets of what the node needs, where it stays its own target; else none.
    fn own_list(
        &self,
        few: &BTreeMap<usize, Option<usize>>,
        node: usize,
    ) -> Result<NodeList, AllocError>
        requires { node < node_count self.now }
        ensures { IfOk result (λ list. list.items ≡ own_list few.now (needs_of self.now) node) }
    {
        let mut list = NodeList::new(self.alloc);
        if !few.contains_key(&node) {
            push_targets(&mut list, few, self.needs(node))?;
        }
        Ok(list)
    }

    // Adds to the lists what the targets of the few are linked to afterwards.
    fn gather_few(
        &self,
        lists: &mut BTreeMap<usize, NodeList>,
        few: &BTreeMap<usize, Option<usize>>,
    ) -> Result<(), AllocError>
        requires nodes { (a : ℕ) → is_among few.now a ≡ true → a < node_count self.now }
        requires own { AreOwn few.now (needs_of self.now) lists.old }
        requires rows { AreRows (node_count self.now) lists.old }
        ensures gathered { OnOk result (GathersFew few.now (needs_of self.now) lists.new) }
        ensures rows { OnOk result (AreRows (node_count self.now) lists.new) }
        ensures same { OnOk result ((a : ℕ) → IsSome (list_at lists.old a) → IsSome (list_at lists.new a)) }
    {
        'few: for (node, target) in few {
            gather(lists, few, *target, self.needs(*node))?;
        }
        Ok(())
    }

    // Replaces what each node needs for which there is a list; the others keep their needs. Where there is no memory all
    // stays as it was.
    fn link_few(&mut self, lists: BTreeMap<usize, NodeList>) -> Result<(), AllocError>
        requires rows { AreRows (node_count self.old) lists }
        requires below { (a b : ℕ) → has b (listed_at lists a) ≡ true → b < node_count self.old }
        ensures ok { OnOk result ((a : ℕ) → needs_of self.new a ≡ unwrap_or (list_at lists a) (needs_of self.old a)) }
        ensures err { OnErr result ((a : ℕ) → needs_of self.new a ≡ needs_of self.old a) }
        ensures count { node_count self.new ≡ node_count self.old }
    {
        let changes = self.changes(lists)?;
        self.users.put_all_changes(&changes)?;
        change_all(&mut self.needs, &mut self.users, changes);
        Ok(())
    }

    // The changes of the nodes that have a list.
    fn changes(&self, lists: BTreeMap<usize, NodeList>) -> Result<Vec<Change>, AllocError>
        requires rows { AreRows (node_count self.now) lists }
        requires below { (a b : ℕ) → has b (listed_at lists a) ≡ true → b < node_count self.now }
        ensures { IfOk result (λ changes. AreChanges (node_count self.now) (needs_of self.now) lists changes.items) }
    {
        let _many = lists.len();
        let mut changes = Vec::new(self.alloc);
        for (node, list) in lists {
            changes.push(Change::new(self.alloc, node, list, self.needs(node))?)?;
        }
        Ok(changes)
    }
}

/// The target of a node, of which few have another than themselves, or none. Costs a search among the few.
pub fn few_target(few: &BTreeMap<usize, Option<usize>>, node: usize) -> Option<usize>
    ensures { result ≡ few_target few.now node }
{
    match few.get(&node) {
        Some(target) => *target,
        None => Some(node),
    }
}

// Adds the targets of those nodes that have one.
fn push_targets(
    list: &mut NodeList,
    few: &BTreeMap<usize, Option<usize>>,
    nodes: &[usize],
) -> Result<(), AllocError>
    ensures { OnOk result (list.new.items ≡ list.old.items ++ filter_map (few_target few.now) nodes.now) }
{
    'nodes: for node in nodes {
        push_some(list, few_target(few, *node))?;
    }
    Ok(())
}

// Adds the number at the end where there is one.
fn push_some(list: &mut NodeList, number: Option<usize>) -> Result<(), AllocError>
    ensures { OnOk result (list.new.items ≡ list.old.items ++ option_to_list number) }
{
    if let Some(number) = number {
        list.push(number)?;
    }
    Ok(())
}

// Adds the targets of a node's needs to the list of its target, where that has one.
fn gather(
    lists: &mut BTreeMap<usize, NodeList>,
    few: &BTreeMap<usize, Option<usize>>,
    target: Option<usize>,
    needs: &[usize],
) -> Result<(), AllocError>
    ensures ok { OnOk result ((t : ℕ) → target ≡ Some t → list_at lists.new t ≡ option_map (λ list. list ++ filter_map (few_target few.now) needs.now) (list_at lists.old t)) }
    ensures rest { OnOk result ((a : ℕ) → (target ≡ Some a → ⊥) → list_at lists.new a ≡ list_at lists.old a) }
{
    match target {
        Some(target) => match lists.get_mut(&target) {
            Some(list) => push_targets(list, few, needs),
            None => Ok(()),
        },
        None => Ok(()),
    }
}
