// Lists of calls that are drawn, on a graph of needs beside the plain model.
use crate::both::Both;
use crate::nodes::any_node;
use crate::tally::Tally;
use dep_graph::Node;
use draws::{Corner, Draws};
use shift_core::sound;
use std::alloc::{AllocError, Global};

// How many lists are drawn at a corner, and how many calls each has.
const LISTS: u64 = 10;

const CALLS: u32 = 150;

// How many long ones are drawn besides, and how many calls each of these has: over so many, tables of lines are merged and what a
// graph files is made anew.
const LONG_LISTS: u64 = 2;

const LONG_CALLS: u32 = 2_000;

// How many marks are compared after each call, and how many nodes a node is linked to at most.
const MARKS: u32 = 2;

const NEEDS: u32 = 3;

// More than the links that a list has.
const MANY: u32 = 100_000;

// A list under way.
#[derive(Drop)]
struct List {
    alloc: Global,
    both: Both,
    draws: Draws,
    // Whether links that close a cycle are kept. Else almost all nodes have an order.
    keeps_cycles: bool,
    tally: Tally,
}

// What comes of lists at a corner. Those of even seeds keep no cycles.
pub(crate) fn lists(alloc: Global, corner: Corner) -> Result<Tally, AllocError> {
    let mut tally = Tally::default();
    'seeds: for seed in 0..LISTS + LONG_LISTS {
        tally.start_list(seed);
        let calls = if seed < LISTS { CALLS } else { LONG_CALLS };
        run_list(alloc, corner, seed, calls, &mut tally)?;
    }
    Ok(tally)
}

// Makes so many calls of a list.
fn run_list(
    alloc: Global,
    corner: Corner,
    seed: u64,
    calls: u32,
    tally: &mut Tally,
) -> Result<(), AllocError> {
    let mut list = List {
        alloc,
        both: Both::new(alloc)?,
        draws: Draws::new(seed, corner),
        keeps_cycles: seed % 2 == 1,
        tally: *tally,
    };
    let end = list.run(calls);
    *tally = list.tally;
    end
}

impl List {
    // Makes so many calls, and compares after each.
    fn run(&mut self, calls: u32) -> Result<(), AllocError> {
        'calls: for _ in 0..calls {
            self.tally.start_call();
            self.call()?;
            self.compare()?;
        }
        Ok(())
    }

    // Makes one call.
    fn call(&mut self) -> Result<(), AllocError> {
        match self.draws.below(20) {
            0..11 => self.link(),
            11..13 => {
                let user = self.node();
                self.unlink(user);
                Ok(())
            }
            13..19 => self.shift(),
            _ => self.copy(),
        }
    }

    // Links a node to some others, and unlinks it where that closes a cycle that isn't kept.
    fn link(&mut self) -> Result<(), AllocError> {
        let user = any_node(&mut self.draws);
        let needs = self.needs()?;
        self.both.link(user, &needs)?;
        self.tally.links = self.tally.links.saturating_add(1);
        if !self.keeps_cycles && self.both.is_on_cycle(user)? {
            self.unlink(user);
        }
        Ok(())
    }

    // Some nodes to which one is linked.
    fn needs(&mut self) -> Result<Vec<Node>, AllocError> {
        let mut needs = Vec::new(self.alloc);
        'needs: for _ in 0..1 + self.draws.below(NEEDS) {
            needs.push(any_node(&mut self.draws))?;
        }
        Ok(needs)
    }

    // Lets a node be linked to none.
    fn unlink(&mut self, user: Node) {
        self.both.unlink(user);
        self.tally.unlinks = self.tally.unlinks.saturating_add(1);
    }

    // A node that is an end of some link mostly, and else any.
    fn node(&mut self) -> Node {
        let linked = self.both.end_of_a_link(self.draws.below(MANY));
        let any = any_node(&mut self.draws);
        if self.draws.below(4) == 0 {
            any
        } else {
            linked.unwrap_or(any)
        }
    }

    // Does an operation, where it fits.
    fn shift(&mut self) -> Result<(), AllocError> {
        let s = self.draws.shift();
        if sound(&s) {
            self.both.shift(&s)?;
            self.tally.shifts = self.tally.shifts.saturating_add(1);
        }
        Ok(())
    }

    // Goes on with a copy.
    fn copy(&mut self) -> Result<(), AllocError> {
        self.both.go_on_with_a_copy()?;
        self.tally.copies = self.tally.copies.saturating_add(1);
        Ok(())
    }

    // Compares the answers for some nodes and an operation.
    fn compare(&mut self) -> Result<(), AllocError> {
        let marks = self.marks()?;
        let node = self.node();
        self.both.compare_reach(&marks, &mut self.tally)?;
        self.both.compare_cycle(node, &mut self.tally)?;
        self.both.compare_users(node, &mut self.tally)?;
        let s = self.draws.shift();
        if sound(&s) {
            self.both.compare_bent(&s, &mut self.tally)?;
        }
        Ok(())
    }

    // Some nodes.
    fn marks(&mut self) -> Result<Vec<Node>, AllocError> {
        let mut marks = Vec::new(self.alloc);
        'marks: for _ in 0..MARKS {
            marks.push(self.node())?;
        }
        Ok(marks)
    }
}
