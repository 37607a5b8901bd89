// The links of formulas: what a cell's formula needs, and which formulas need a cell.
ghost use Rattle.std.specs.Prelude.{◌≡◌, ◌++◌, ◌||◌, ℕ, ℤ, IfOk, List, OnOk, map, option_map};
ghost use Rattle.std.specs.BTreeSet.{IsOrdered, contains};
ghost use Rattle.std.specs.FinMap as fin;
ghost use Rattle.std.specs.List.{All, cons_option, filter_map, list_any};
ghost use Rattle.std.specs.Ordering.{eq_by_cmp};
ghost use Rattle.cell_addr.specs.Order.{place_cmp};
ghost use Rattle.custom_fn.specs.declared.rule.Rule.{Rule};
ghost use Rattle.formula_tree.specs.Links.{once, once_after, same_link};
ghost use Rattle.formula_tree.specs.declared.link.Link.TheVariants as links;
ghost use Rattle.name_table.specs.Named.{words_of};
ghost use Rattle.book_values.specs.Names.{found, key_of};
ghost use Rattle.book_values.specs.Workbook as nodes;
ghost use Rattle.book_model.specs.Answers.{dependents_of, link_of, name_link, precedents_of};
ghost use Rattle.book_model.specs.Operation as op;
ghost use Rattle.book_model.specs.Sound.{IsLinkInside};
ghost use Rattle.dep_graph.specs.Nodes.{has, items_of};
ghost use Rattle.dep_graph.specs.declared.node.Node.TheVariants.{Cell};
ghost use Rattle.kept_book.specs.Kept.{KeepsElsewhere};
ghost use Rattle.kept_steps.specs.Reads.{Reads};
ghost use Rattle.recalc_core.specs.Nodes.{scope_at};
ghost use Rattle.session_operations.specs.Following.{book_of, words_in};
ghost use Rattle.session_operations.specs.Users.{AreUsersIn};
ghost use Rattle.session_operations.specs.Seen.{Fits, ValuesFollow, ValuesFollowStill, state_of};
ghost use Rattle.session_questions.specs.internal.Links.{is_shown_at, mentioned, place_in, shown_at, shown_link};
ghost use Rattle.session_questions.specs.internal.Names.{passes, shown_cmp};
ghost use Rattle.session_operations.specs.Turns.{Turns};

use crate::shown_name::ShownName;
use cell_addr::{NO_SHEET, Place, capitals};
use dep_graph::{Node, Nodes};
use formula_tree::{Home, Link, Mention, mentions_of};
use name_table::Names;
use session_operations::{Parts, Stop};
use std::alloc::{AllocError, Global};
use std::collections::BTreeSet;

/// What a cell's formula needs, in the order of the formula, each once: a whole range as its block. Costs about the nodes of
/// the formula, and each link is compared with those listed before it.
///
/// # Errors
/// `NoSheet`, `Outside` where the place isn't within the limits of a sheet.
pub fn precedents(parts: &mut Parts, at: Place) -> Result<Vec<Link>, Stop>
    requires { Fits parts.old }
    ensures turns { Turns (op.precedents at) (λ d links. links.items ≡ precedents_of d at) (state_of parts.old) (state_of parts.new) result }
    ensures fits { Fits parts.new }
    ensures inside { IfOk result (λ links. All IsLinkInside links.items) }
    ensures kept { KeepsElsewhere at parts.old.session.book parts.new.session.book }
    ensures line { parts.new.session.book.lazy.line ≡ parts.old.session.book.lazy.line }
    ensures follow { ValuesFollowStill parts.old parts.new }
    ensures values { parts.new.values ≡ parts.old.values }
{
    parts.check_place(at)?;
    let links = links_from(parts, at)?;
    Ok(links)
}

/// The cells and then the names whose formulas need a cell themselves, each in order. Costs the sorting of its answer, about
/// the number of links to the cell and to the ranges that cover it, and the links of the formulas that changed since links were
/// read.
///
/// # Errors
/// `NoSheet`, `Outside`.
pub fn dependents(parts: &mut Parts, at: Place) -> Result<Vec<Link>, Stop>
    requires fits { Fits parts.old }
    requires follow { (customs : List (List ℕ × Rule)) × (today : ℤ) × ValuesFollow customs today parts.old }
    ensures turns { Turns (op.dependents at) (λ d links. links.items ≡ dependents_of d at) (state_of parts.old) (state_of parts.new) result }
    ensures fits { Fits parts.new }
    ensures inside { IfOk result (λ links. All IsLinkInside links.items) }
    ensures line { parts.new.session.book.lazy.line ≡ parts.old.session.book.lazy.line }
    ensures follow { ValuesFollowStill parts.old parts.new }
{
    parts.check_place(at)?;
    let links = links_to(parts, at)?;
    Ok(links)
}

// The links of a cell's formula, if it holds one.
fn links_from(parts: &mut Parts, at: Place) -> Result<Vec<Link>, AllocError>
    ensures links { IfOk result (λ links. links.items ≡ precedents_of (state_of parts.old) at) }
    ensures state { state_of parts.new ≡ state_of parts.old }
    ensures kept { KeepsElsewhere at parts.old.session.book parts.new.session.book }
    ensures line { parts.new.session.book.lazy.line ≡ parts.old.session.book.lazy.line }
    ensures follow { ValuesFollowStill parts.old parts.new }
    ensures values { parts.new.values ≡ parts.old.values }
{
    let mentions = mentioned(parts, at)?;
    let links = links_of(parts, at.sheet, mentions.as_slice())?;
    Ok(links)
}

// What the formula of a cell mentions, if it holds one.
#[tactic(auto, using(session_operations::proofs::Following::follow_reads))]
fn mentioned(parts: &mut Parts, at: Place) -> Result<Vec<Mention>, AllocError>
    ensures mentions { IfOk result (λ list. list.items ≡ mentioned (nodes.content_tree (fin.get (state_of parts.old).book.cells at))) }
    ensures state { state_of parts.new ≡ state_of parts.old }
    ensures kept { KeepsElsewhere at parts.old.session.book parts.new.session.book }
    ensures line { parts.new.session.book.lazy.line ≡ parts.old.session.book.lazy.line }
    ensures follow { ValuesFollowStill parts.old parts.new }
    ensures values { parts.new.values ≡ parts.old.values }
{
    let alloc = parts.session.book.alloc;
    match parts.session.formula(at)? {
        Some(tree) => mentions_of(alloc, &tree, Home::Cell(at)),
        None => Ok(Vec::new(alloc)),
    }
}

// What a formula on the sheet mentions, as links, each once. Each is compared with those listed before it.
fn links_of(parts: &Parts, sheet: u32, mentions: &[Mention]) -> Result<Vec<Link>, AllocError>
    ensures { IfOk result (λ list. list.items ≡ once same_link (filter_map (link_of (fin.entries (state_of parts.now).book.names) sheet) mentions.now)) }
{
    let mut list = Vec::new(parts.session.book.alloc);
    'mentions: for mention in mentions {
        let link = link_of(parts, sheet, mention)?;
        push_new(&mut list, link)?;
    }
    Ok(list)
}

// A mention as a link, a whole range as its block; `None` for a name that isn't found.
fn link_of(parts: &Parts, sheet: u32, mention: &Mention) -> Result<Option<Link>, AllocError>
    ensures { IfOk result (λ link. link ≡ link_of (fin.entries (state_of parts.now).book.names) sheet mention.now) }
{
    match mention {
        Mention::Cell(place) => Ok(Some(Link::Cell(*place))),
        Mention::Area(block) => Ok(Some(Link::Area(*block))),
        Mention::Whole(whole) => Ok(Some(Link::Area(whole.block()))),
        Mention::Name(word) => name_link(parts, word.as_str(), sheet),
    }
}

// The link of the name that the word finds on the sheet.
fn name_link(parts: &Parts, word: &str, sheet: u32) -> Result<Option<Link>, AllocError>
    ensures { IfOk result (λ link. link ≡ option_map name_link (found (fin.entries (state_of parts.now).book.names) word.now sheet)) }
{
    match parts.scope_finding(word, sheet) {
        Some(scope) => {
            let word = capitals(parts.session.book.alloc, word)?;
            Ok(Some(Link::Name(scope, word)))
        }
        None => Ok(None),
    }
}

// The cells and then the names whose formulas mention a place.
fn links_to(parts: &mut Parts, at: Place) -> Result<Vec<Link>, AllocError>
    requires fits { Fits parts.old }
    requires follow { (customs : List (List ℕ × Rule)) × (today : ℤ) × ValuesFollow customs today parts.old }
    ensures links { IfOk result (λ links. links.items ≡ dependents_of (state_of parts.old) at) }
    ensures state { state_of parts.new ≡ state_of parts.old }
    ensures line { parts.new.session.book.lazy.line ≡ parts.old.session.book.lazy.line }
    ensures follow { ValuesFollowStill parts.old parts.new }
{
    let users = users(parts, at)?;
    let alloc = parts.session.book.alloc;
    let cells = cells_among(alloc, users.items())?;
    let names = names_among(alloc, &parts.session.book.names, users.items())?;
    let mut links = Vec::new(alloc);
    push_cells(&mut links, &cells)?;
    push_names(alloc, &mut links, &names)?;
    Ok(links)
}

// The nodes whose formulas mention a place.
fn users(parts: &mut Parts, at: Place) -> Result<Nodes, AllocError>
    requires fits { Fits parts.old }
    requires follow { (customs : List (List ℕ × Rule)) × (today : ℤ) × ValuesFollow customs today parts.old }
    ensures users { IfOk result (λ nodes. AreUsersIn (book_of parts.old.session) (words_in parts.old.session) at (items_of nodes)) }
    ensures reads { Reads parts.old.session parts.new.session }
    ensures follow { ValuesFollowStill parts.old parts.new }
{
    let Parts { session, values } = parts;
    values.users(session, at)
}

// The cells among the nodes.
fn cells_among(alloc: Global, nodes: &[Node]) -> Result<BTreeSet<Place>, AllocError>
    ensures { IfOk result (λ set. (q : Place) → contains place_cmp set q ≡ has (Cell q) nodes.now) }
{
    let mut cells = BTreeSet::new(alloc);
    'nodes: for node in nodes {
        add(&mut cells, place_in(*node))?;
    }
    Ok(cells)
}

// The place of the node, if it is a cell.
fn place_in(a: Node) -> Option<Place>
    ensures { result ≡ place_in a }
{
    match a {
        Node::Cell(at) => Some(at),
        Node::Name { .. } | Node::Range(_) | Node::Whole(_) => None,
    }
}

// The names among the nodes, as links show them.
fn names_among(
    alloc: Global,
    names: &Names,
    nodes: &[Node],
) -> Result<BTreeSet<ShownName>, AllocError>
    ensures { IfOk result (λ set. (q : ShownName) → contains shown_cmp set q ≡ list_any (is_shown_at (words_of names.now) q) nodes.now) }
{
    let mut shown_names = BTreeSet::new(alloc);
    'nodes: for node in nodes {
        let shown = shown_at(alloc, names, *node)?;
        add(&mut shown_names, shown)?;
    }
    Ok(shown_names)
}

// The node as links show it, if it is a name.
fn shown_at(alloc: Global, names: &Names, a: Node) -> Result<Option<ShownName>, AllocError>
    ensures { IfOk result (λ name. name ≡ shown_at (words_of names.now) a) }
{
    match a {
        Node::Name { scope, word } => match names.spelling(word) {
            Some(spelling) => {
                let word = capitals(alloc, spelling.as_str())?;
                Ok(Some(ShownName {
                    scope: scope_at(scope),
                    word,
                }))
            }
            None => Ok(None),
        },
        Node::Cell(_) | Node::Range(_) | Node::Whole(_) => Ok(None),
    }
}

// The scope of this number: a sheet, or the whole workbook.
fn scope_at(number: u32) -> Option<u32>
    ensures { result ≡ scope_at number }
{
    if number == NO_SHEET {
        None
    } else {
        Some(number)
    }
}

// Puts a key into a set, if there is one.
pub(crate) fn add<K: Ord + Drop>(set: &mut BTreeSet<K>, key: Option<K>) -> Result<(), AllocError>
    ensures { OnOk result ((q : K) → contains K.cmp set.new q ≡ (passes (λ k. eq_by_cmp K.cmp k q) key || contains K.cmp set.old q)) }
{
    if let Some(key) = key {
        set.insert(key)?;
    }
    Ok(())
}

// Puts a link at the end, if there is one and none of the others is the same.
fn push_new(list: &mut Vec<Link>, link: Option<Link>) -> Result<(), AllocError>
    ensures { OnOk result ((rest : _) → once_after same_link list.new.items rest ≡ once_after same_link list.old.items (cons_option link rest)) }
{
    if let Some(link) = link {
        if !has_link(list, &link) {
            list.push(link)?;
        }
    }
    Ok(())
}

// Whether one of the links is the same.
fn has_link(list: &[Link], link: &Link) -> bool
    ensures { result ≡ list_any (same_link link.now) list.now }
{
    list.iter().any(|known| link.same(known))
}

// Puts cells at the end, in order.
fn push_cells(list: &mut Vec<Link>, cells: &BTreeSet<Place>) -> Result<(), AllocError>
    ensures order { IsOrdered place_cmp cells.now }
    ensures list { OnOk result (list.new.items ≡ list.old.items ++ map links.Cell cells.now.keys) }
{
    'cells: for place in cells {
        list.push(Link::Cell(*place))?;
    }
    Ok(())
}

// Puts names at the end, in order.
fn push_names(
    alloc: Global,
    list: &mut Vec<Link>,
    names: &BTreeSet<ShownName>,
) -> Result<(), AllocError>
    ensures order { IsOrdered shown_cmp names.now }
    ensures list { OnOk result (list.new.items ≡ list.old.items ++ map shown_link names.now.keys) }
{
    'names: for name in names {
        list.push(Link::Name(name.scope, name.word.copy(alloc)?))?;
    }
    Ok(())
}
