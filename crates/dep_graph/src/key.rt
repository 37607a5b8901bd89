// Under what nodes are kept.
ghost use Rattle.std.specs.Prelude.{◌≡◌, true};
ghost use Rattle.std.specs.Cmp.{partial_equiv_from_equiv};
ghost use Rattle.dep_graph.specs.declared.key.Key.TheVariants.{Cell, Name, Range, Whole};
ghost use Rattle.dep_graph.specs.internal.Keys.{fed_key, is_narrow, key_of, keys_are_alike, node_of, same_key, same_key_fed};

use crate::ends::Ends;
use crate::node::{Node, tag};
use place_lines::{LineArea, LineSpot, PlaceLines};
use std::hash::{Hash, Hasher};

// A node by the numbers of its lines, which stay while operations move these.
#[derive(Clone, Copy, Debug)]
pub(crate) enum Key {
    Cell(LineSpot),
    Name { scope: u32, word: u64 },
    Range(LineArea),
    Whole(Ends),
}

impl Key {
    // The key of a node.
    pub(crate) fn of(lines: &PlaceLines, node: Node) -> Key
        ensures key { result ≡ key_of lines.now node }
        ensures narrow { is_narrow result ≡ true }
    {
        match node {
            Node::Cell(at) => Key::Cell(lines.spot(at)),
            Node::Name { scope, word } => Key::Name { scope, word },
            Node::Range(block) => Key::Range(lines.area(block)),
            Node::Whole(whole) => Key::Whole(Ends::of(lines, whole)),
        }
    }

    // The node of the key; None where one of its lines stands nowhere.
    pub(crate) fn node(self, lines: &PlaceLines) -> Option<Node>
        ensures { result ≡ node_of lines.now self }
    {
        match self {
            Key::Cell(spot) => Some(Node::Cell(lines.place(spot)?)),
            Key::Name { scope, word } => Some(Node::Name { scope, word }),
            Key::Range(area) => Some(Node::Range(lines.block(area)?)),
            Key::Whole(ends) => Some(Node::Whole(ends.whole(lines)?)),
        }
    }

    // Whether it is that of the cell at the spot.
    fn is_cell(self, spot: LineSpot) -> bool
        ensures { result ≡ same_key self (Cell spot) }
    {
        match self {
            Key::Cell(own) => own == spot,
            Key::Name { .. } => false,
            Key::Range(_) => false,
            Key::Whole(_) => false,
        }
    }

    // Whether it is that of the name of the scope and the word.
    fn is_name(self, in_scope: u32, of_word: u64) -> bool
        ensures { result ≡ same_key self (Name in_scope of_word) }
    {
        match self {
            Key::Cell(_) => false,
            Key::Name { scope, word } => scope == in_scope && word == of_word,
            Key::Range(_) => false,
            Key::Whole(_) => false,
        }
    }

    // Whether it is that of the range of the area.
    fn is_range(self, area: LineArea) -> bool
        ensures { result ≡ same_key self (Range area) }
    {
        match self {
            Key::Cell(_) => false,
            Key::Name { .. } => false,
            Key::Range(own) => own == area,
            Key::Whole(_) => false,
        }
    }

    // Whether it is that of the whole range of the ends.
    fn is_whole(self, ends: Ends) -> bool
        ensures { result ≡ same_key self (Whole ends) }
    {
        match self {
            Key::Cell(_) => false,
            Key::Name { .. } => false,
            Key::Range(_) => false,
            Key::Whole(own) => own == ends,
        }
    }
}

impl PartialEq for Key {
    ghost eq = { same_key };

    ghost laws = { partial_equiv_from_equiv keys_are_alike };

    fn eq(&self, other: &Key) -> bool {
        match *other {
            Key::Cell(spot) => self.is_cell(spot),
            Key::Name { scope, word } => self.is_name(scope, word),
            Key::Range(area) => self.is_range(area),
            Key::Whole(ends) => self.is_whole(ends),
        }
    }
}

impl Eq for Key {
    ghost laws = { keys_are_alike };
}

impl Hash for Key {
    ghost hash_input = { fed_key };

    ghost respects_eq = { same_key_fed };

    // A row comes last, along which cells and ranges follow one another in most sheets.
    fn hash<H: Hasher>(&self, state: &mut H) {
        match *self {
            Key::Cell(spot) => {
                state.write_u8(0);
                state.write_u32(spot.sheet);
                state.write_u64(spot.col);
                state.write_u64(spot.row);
            }
            Key::Name { scope, word } => {
                state.write_u8(1);
                state.write_u32(scope);
                state.write_u64(word);
            }
            Key::Range(area) => {
                state.write_u8(2);
                state.write_u32(area.sheet);
                state.write_u64(area.left);
                state.write_u64(area.right);
                state.write_u64(area.top);
                state.write_u64(area.bottom);
            }
            Key::Whole(ends) => {
                state.write_u8(tag(ends.axis));
                state.write_u32(ends.sheet);
                state.write_u64(ends.first);
                state.write_u64(ends.last);
            }
        }
    }
}
