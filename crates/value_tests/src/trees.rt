ghost use Rattle.std.specs.Prelude.{◌≡◌, ◌<◌, IfOk, false};
ghost use Rattle.cell_addr.specs.Place.{IsInside};
ghost use Rattle.formula_tree.specs.Seen.{seen};
ghost use Rattle.formula_tree.specs.Term.{binary, cell};
ghost use Rattle.formula_tree.specs.declared.operator.Op.TheVariants as ops;

use cell_addr::{COLS, NO_SHEET, Place, ROWS, Text};
use formula_tree::{
    Corner, Home, Link, NO_LINE, Node, Op, Part, Plain, PlainList, Pool, Ref, SheetPart, Sign,
    Tree, TreeList, depth, mentions_of, names_of, places_of, to_absolute,
};
use std::alloc::{AllocError, Global};
use std::rc::Rc;
use std::test::Fail;

// A place of the first sheet, by row and column counted from 0.
fn place(row: u32, col: u32) -> Place
    ensures { result ≡ record { sheet = 0; row = row; col = col } }
{
    Place { sheet: 0, row, col }
}

// The corner at a place, without a `$`.
fn corner(row: u32, col: u32) -> Corner
    ensures { result ≡ record { at = record { sheet = 0; row = row; col = col }; row_fixed = false; col_fixed = false } }
{
    Corner {
        at: place(row, col),
        row_fixed: false,
        col_fixed: false,
    }
}

// The tree of two cells added.
fn sum(alloc: Global, left: Corner, right: Corner) -> Result<Plain, AllocError>
    ensures { IfOk result (λ t. seen t ≡ binary ops.Add (cell left) (cell right)) }
{
    let left = Box::new(alloc, Plain::Cell(left))?;
    let right = Box::new(alloc, Plain::Cell(right))?;
    Ok(Plain::Binary(Op::Add, left, right))
}

// The row and the column of the home's sheet that lie so many lines after the home's own.
fn relative(row: i32, col: i32) -> Ref {
    Ref {
        sheet: SheetPart::Own,
        row: Part::Rel(row),
        col: Part::Rel(col),
    }
}

// A list of two arguments.
fn arguments(alloc: Global, first: Node, second: Node) -> Result<TreeList, AllocError> {
    let mut list = TreeList::new(alloc)?;
    list.push(Rc::new(alloc, first)?)?;
    list.push(Rc::new(alloc, second)?)?;
    Ok(list)
}

// A call with two arguments.
fn call(alloc: Global, word: &str, first: Node, second: Node) -> Result<Node, AllocError> {
    let list = arguments(alloc, first, second)?;
    Ok(Node::Call(Text::from_str(alloc, word)?, list))
}

// A name.
fn name(alloc: Global, word: &str) -> Result<Node, AllocError> {
    Ok(Node::Name(Text::from_str(alloc, word)?))
}

// Two trees added.
fn added(alloc: Global, left: Node, right: Node) -> Result<Tree, AllocError> {
    let left = Rc::new(alloc, left)?;
    let right = Rc::new(alloc, right)?;
    Ok(Rc::new(alloc, Node::Binary(Op::Add, left, right))?)
}

// The call `ROWS(A1:C3,Rate)` in a formula of A1.
fn rows(alloc: Global) -> Result<Node, AllocError> {
    let block = Node::Area(relative(0, 0), relative(2, 2));
    call(alloc, "ROWS", block, name(alloc, "Rate")?)
}

// The tree of `=SUM(B2,ROWS(A1:C3,Rate))+RATE` in a formula of A1.
fn sum_of_rows(alloc: Global) -> Result<Tree, AllocError> {
    let sum = call(alloc, "SUM", Node::Cell(relative(1, 1)), rows(alloc)?)?;
    added(alloc, sum, name(alloc, "RATE")?)
}

// Whether the tree is the sum of two cells.
fn is_sum(tree: &Plain, first: Corner, second: Corner) -> bool {
    let Plain::Binary(Op::Add, left, right) = tree else {
        return false;
    };
    is_cell(left, first) && is_cell(right, second)
}

// Whether the tree is a cell.
fn is_cell(tree: &Plain, corner: Corner) -> bool {
    match tree {
        Plain::Cell(found) => *found == corner,
        _ => false,
    }
}

// A sign in front of the cell one row further down and one column further right.
fn signed(alloc: Global, sign: Sign) -> Result<Tree, AllocError> {
    let cell = Rc::new(alloc, Node::Cell(relative(1, 1)))?;
    Ok(Rc::new(alloc, Node::Prefix(sign, cell))?)
}

// What stands after the sign.
fn operand(tree: &Tree) -> Option<&Tree> {
    match tree.as_ref() {
        Node::Prefix(_, part) => Some(part),
        _ => None,
    }
}

// The shared tree of the sum of the first two cells of a row, in a formula of the third.
fn shared_sum(alloc: Global, pool: &mut Pool, row: u32) -> Result<Tree, AllocError>
    requires { row < 2 }
{
    let plain = sum(alloc, corner(row, 0), corner(row, 1))?;
    pool.intern(&plain, Home::Cell(place(row, 2)))
}

// Whether the tree is the sum of the first two cells of the third row, in a formula of the third.
fn is_third_sum(alloc: Global, tree: &Tree) -> Result<bool, AllocError> {
    let plain = to_absolute(alloc, tree, Home::Cell(place(2, 2)))?;
    Ok(is_sum(&plain, corner(2, 0), corner(2, 1)))
}

// Whether the tree's places in a formula of C1 are A1 and B1.
fn has_first_places(alloc: Global, tree: &Tree) -> Result<bool, AllocError> {
    match places_of(alloc, tree, Home::Cell(place(0, 2)))?.as_slice() {
        [first, second] => {
            Ok(first.same(&Link::Cell(place(0, 0))) && second.same(&Link::Cell(place(0, 1))))
        }
        _ => Ok(false),
    }
}

// Whether `=A1+B1` of C1 and `=A2+B2` of C2 are one tree without names, which is `=A3+B3` at C3.
fn sums_share(alloc: Global, pool: &mut Pool) -> Result<bool, AllocError> {
    let first = shared_sum(alloc, pool, 0)?;
    let second = shared_sum(alloc, pool, 1)?;
    let are_places = has_first_places(alloc, &first)? && names_of(alloc, &first)?.is_empty();
    Ok(are_places && Tree::ptr_eq(&first, &second) && is_third_sum(alloc, &first)?)
}

// Whether the pool was empty, and has one tree for both of these formulas.
fn has_one_tree(alloc: Global, pool: &mut Pool) -> Result<bool, AllocError> {
    let is_empty = pool.is_empty();
    Ok(is_empty && sums_share(alloc, pool)? && pool.len() == 1)
}

#[test]
fn equal_formulas_share_a_tree(rt: HostRuntime) -> Result<(), Fail> {
    let mut pool = Pool::new(rt.alloc())?;
    assert!(rt; has_one_tree(rt.alloc(), &mut pool)?);
    Ok(())
}

// Whether the same stands after both signs.
fn share_operand(first: &Tree, second: &Tree) -> bool {
    match (operand(first), operand(second)) {
        (Some(left), Some(right)) => Tree::ptr_eq(left, right),
        _ => false,
    }
}

// Whether the trees of one cell with a sign and with the other share it.
fn leaves_are_shared(alloc: Global, pool: &mut Pool) -> Result<bool, AllocError> {
    let plus = pool.share(signed(alloc, Sign::Plus)?)?;
    let minus = pool.share(signed(alloc, Sign::Minus)?)?;
    Ok(share_operand(&plus, &minus))
}

// Whether they share it, and the pool has the two trees.
fn has_two_trees(alloc: Global, pool: &mut Pool) -> Result<bool, AllocError> {
    Ok(leaves_are_shared(alloc, pool)? && pool.len() == 2)
}

#[test]
fn trees_that_differ_share_their_leaves(rt: HostRuntime) -> Result<(), Fail> {
    let mut pool = Pool::new(rt.alloc())?;
    assert!(rt; has_two_trees(rt.alloc(), &mut pool)?);
    Ok(())
}

// Shares a tree, which nobody holds then.
fn share_for_nobody(alloc: Global, pool: &mut Pool) -> Result<(), AllocError> {
    pool.share(Rc::new(alloc, Node::Cell(relative(1, 1)))?)?;
    Ok(())
}

// Whether the pool shares an equal tree with this one.
fn shares(alloc: Global, pool: &mut Pool, tree: &Tree) -> Result<bool, AllocError> {
    let last = pool.share(sum_of_rows(alloc)?)?;
    Ok(Tree::ptr_eq(tree, &last))
}

// Whether a tree that is still held stays alone after a sweep.
fn others_are_swept(alloc: Global, pool: &mut Pool) -> Result<bool, AllocError> {
    let in_use = [pool.share(sum_of_rows(alloc)?)?];
    pool.sweep(&in_use)?;
    Ok(pool.len() == 1 && shares(alloc, pool, &in_use[0])?)
}

// Whether a tree that nobody holds is swept, and the other one stays.
fn are_swept(alloc: Global, pool: &mut Pool) -> Result<bool, AllocError> {
    share_for_nobody(alloc, pool)?;
    others_are_swept(alloc, pool)
}

#[test]
fn trees_that_nobody_holds_are_swept(rt: HostRuntime) -> Result<(), Fail> {
    let mut pool = Pool::new(rt.alloc())?;
    assert!(rt; are_swept(rt.alloc(), &mut pool)?);
    Ok(())
}

// Whether the far corners see each other, and a line in front of the first is none.
fn corners_are_seen(near: Corner, far: Corner) -> bool
    requires near { IsInside near.at }
    requires far { IsInside far.at }
{
    let (near_home, far_home) = (Home::Cell(near.at), Home::Cell(far.at));
    let far_is_seen = Ref::of(far, near_home).at(near_home) == far;
    let seen = Ref::of(near, far_home);
    far_is_seen && seen.at(far_home) == near && seen.at(near_home).at.row == NO_LINE
}

// Whether a name of no sheet has its own as the home's, and counts from the first row and column.
fn name_counts_from_first() -> bool {
    let global = Home::Name { sheet: NO_SHEET };
    let first = Place {
        sheet: NO_SHEET,
        row: 1,
        col: 2,
    };
    relative(1, 2).at(global).at == first
}

// Whether a block whose corners have different `$` follows its formula.
fn block_follows(top: Corner) -> bool
    requires { IsInside top.at }
{
    let home = Home::Cell(place(5, 5));
    let below = Home::Cell(place(6, 6));
    let last = Ref::of(corner(2, 2), home).at(below);
    let moved = Ref::of(top, home).at(below).block_to(last);
    moved == corner(1, 0).block_to(corner(3, 3))
}

#[test]
fn references_are_seen_from_their_homes(rt: HostRuntime) {
    assert!(rt; corners_are_seen(corner(0, 0), corner(ROWS - 1, COLS - 1)));
    assert!(rt; name_counts_from_first());
    let mut top = corner(0, 0);
    top.col_fixed = true;
    assert!(rt; block_follows(top));
}

// Whether the tree has the name alone.
fn has_name(alloc: Global, tree: &Tree) -> Result<bool, AllocError> {
    match names_of(alloc, tree)?.as_slice() {
        [name] => Ok(name.as_str() == "Rate"),
        _ => Ok(false),
    }
}

// Whether the tree has a link to a cell alone: the block in ROWS is not among the links, and a cell and its block are two.
fn has_cell(alloc: Global, tree: &Tree, home: Home) -> Result<bool, AllocError> {
    let block = corner(1, 1).block_to(corner(1, 1));
    match places_of(alloc, tree, home)?.as_slice() {
        [link] => Ok(link.same(&Link::Cell(place(1, 1))) && !link.same(&Link::Area(block))),
        _ => Ok(false),
    }
}

// Whether both the name and the place are mentioned.
fn mentions_both(alloc: Global, tree: &Tree, home: Home) -> Result<bool, AllocError> {
    match mentions_of(alloc, tree, home)?.as_slice() {
        [first, second] => Ok(!first.same(second)),
        _ => Ok(false),
    }
}

// Whether the tree has four levels, its name and its cell.
fn names_all(alloc: Global, tree: &Tree, home: Home) -> Result<bool, AllocError> {
    let has_levels = depth(tree) == 4;
    Ok(has_levels && has_name(alloc, tree)? && has_cell(alloc, tree, home)?)
}

#[test]
fn what_a_tree_names(rt: HostRuntime) -> Result<(), Fail> {
    let home = Home::Cell(place(0, 0));
    let tree = sum_of_rows(rt.alloc())?;
    assert!(rt; names_all(rt.alloc(), &tree, home)? && mentions_both(rt.alloc(), &tree, home)?);
    Ok(())
}

// Whether a list of shared arguments has the one that is put in.
fn has_shared_argument(alloc: Global) -> Result<bool, AllocError> {
    let mut list = TreeList::new(alloc)?;
    list.push(Rc::new(alloc, Node::Truth(true))?)?;
    Ok(matches!(list.items(), [tree] if matches!(tree.as_ref(), Node::Truth(true))))
}

// Whether a list of arguments has the one that is put in.
fn has_argument(alloc: Global) -> Result<bool, AllocError> {
    let mut list = PlainList::new(alloc)?;
    list.push(Plain::Truth(true))?;
    Ok(matches!(list.items(), [Plain::Truth(true)]))
}

#[test]
fn lists_have_what_is_put_in(rt: HostRuntime) -> Result<(), Fail> {
    assert!(rt; has_shared_argument(rt.alloc())? && has_argument(rt.alloc())?);
    Ok(())
}
