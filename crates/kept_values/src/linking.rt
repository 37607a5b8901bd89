// The links of formulas.
ghost use Rattle.std.specs.Prelude.{◌≡◌, ◌++◌, ◌∷◌, [], IfOk, OnErr, OnOk, Some, option_to_list};
ghost use Rattle.std.specs.List.{filter_map};
ghost use Rattle.formula_tree.specs.Reference.{sheet_of};
ghost use Rattle.formula_tree.specs.Relative.{relative};
ghost use Rattle.formula_tree.specs.StandsFor.{at_home};
ghost use Rattle.dep_graph.specs.Graph.{AreSame, links_of};
ghost use Rattle.dep_graph.specs.Laws.{AreLinksInside};
ghost use Rattle.dep_graph.specs.Nodes.{items_of};
ghost use Rattle.recalc_core.specs.Laws.{AreKnown};
ghost use Rattle.recalc_core.specs.Links.{AreLinksFor, AreLinksOf};
ghost use Rattle.recalc_core.specs.Nodes.{AreNumbered};
ghost use Rattle.marked_values.specs.Marks.{AreLinksBut, IsBookInside};
ghost use Rattle.kept_values.specs.internal.Linking.{AddsFound, IsLinkedAnew, node_of};

use cell_addr::Text;
use dep_graph::{Graph, Node, Nodes};
use formula_tree::{Home, Link, Tree, names_of, places_of};
use recalc_core::{NodeContent, Trees};
use std::alloc::{AllocError, Global};

// Links each of the nodes to what its formula in the workbook is linked to.
pub(crate) fn link_all<T: Trees>(
    alloc: Global,
    graph: &mut Graph,
    trees: &mut T,
    nodes: &[Node],
) -> Result<(), AllocError>
    requires inside { IsBookInside (T.workbook trees.old) }
    requires numbered { AreNumbered (T.words trees.old) (T.workbook trees.old).names }
    requires known { AreKnown (T.words trees.old) nodes.now }
    requires but { AreLinksBut (T.workbook trees.old) (T.words trees.old) nodes.now (links_of graph.old) }
    requires links { AreLinksInside (links_of graph.old) }
    ensures ok { OnOk result (AreLinksOf (T.workbook trees.old) (T.words trees.old) (links_of graph.new)) }
    ensures but { AreLinksBut (T.workbook trees.old) (T.words trees.old) nodes.now (links_of graph.new) }
    ensures links { AreLinksInside (links_of graph.new) }
    ensures leaves { T.workbook trees.new ≡ T.workbook trees.old }
    ensures words { T.words trees.new ≡ T.words trees.old }
    ensures reads { T.leaves trees.old trees.new }
{
    'nodes: for node in nodes {
        link(alloc, graph, trees, *node)?;
    }
    Ok(())
}

// Links a node to what its formula in the workbook is linked to; to nothing where it has none. For want of memory its links are as
// they were.
fn link<T: Trees>(
    alloc: Global,
    graph: &mut Graph,
    trees: &mut T,
    a: Node,
) -> Result<(), AllocError>
    requires numbered { AreNumbered (T.words trees.old) (T.workbook trees.old).names }
    ensures ok { OnOk result (IsLinkedAnew (T.workbook trees.old) (T.words trees.old) a (links_of graph.old) (links_of graph.new)) }
    ensures err { OnErr result (AreSame (links_of graph.old) (links_of graph.new)) }
    ensures leaves { T.workbook trees.new ≡ T.workbook trees.old }
    ensures words { T.words trees.new ≡ T.words trees.old }
    ensures reads { T.leaves trees.old trees.new }
{
    match trees.given(a)? {
        NodeContent::Formula(tree, home) => {
            let needs = needs_of(alloc, trees, &tree, home)?;
            graph.link(a, needs.items())
        }
        NodeContent::Nothing | NodeContent::Value(_) => {
            graph.unlink(a);
            Ok(())
        }
    }
}

// The nodes that a formula at the home is linked to.
fn needs_of<T: Trees>(
    alloc: Global,
    trees: &mut T,
    tree: &Tree,
    home: Home,
) -> Result<Nodes, AllocError>
    requires numbered { AreNumbered (T.words trees.old) (T.workbook trees.old).names }
    ensures needs { IfOk result (λ needs. AreLinksFor (T.words trees.old) (T.workbook trees.old).names (sheet_of home) (Some (at_home home (relative tree.now.value))) (items_of needs)) }
    ensures leaves { T.workbook trees.new ≡ T.workbook trees.old }
    ensures words { T.words trees.new ≡ T.words trees.old }
    ensures reads { T.leaves trees.old trees.new }
{
    let places = places_of(alloc, tree, home)?;
    let mut needs = Nodes::new(alloc)?;
    add_places(&places, &mut needs)?;
    let words = names_of(alloc, tree)?;
    add_names(trees, &words, home.sheet(), &mut needs)?;
    Ok(needs)
}

// Adds the nodes of cells, blocks and whole ranges.
fn add_places(places: &[Link], needs: &mut Nodes) -> Result<(), AllocError>
    ensures { OnOk result (items_of needs.new ≡ items_of needs.old ++ filter_map node_of places.now) }
{
    'places: for place in places {
        add_place(place, needs)?;
    }
    Ok(())
}

// Adds the node of a cell, a block or a whole range.
fn add_place(place: &Link, needs: &mut Nodes) -> Result<(), AllocError>
    ensures { OnOk result (items_of needs.new ≡ items_of needs.old ++ option_to_list (node_of place.now)) }
{
    match place {
        Link::Cell(at) => needs.push(Node::Cell(*at)),
        Link::Area(block) => needs.push(Node::Range(*block)),
        Link::Whole(whole) => needs.push(Node::Whole(*whole)),
        Link::Name(_, _) => Ok(()),
    }
}

// Adds the nodes of the names that the words find on the sheet.
fn add_names<T: Trees>(
    trees: &mut T,
    words: &[Text],
    sheet: u32,
    needs: &mut Nodes,
) -> Result<(), AllocError>
    requires numbered { AreNumbered (T.words trees.old) (T.workbook trees.old).names }
    ensures found { OnOk result (AddsFound (T.words trees.old) (T.workbook trees.old).names sheet words.now (items_of needs.old) (items_of needs.new)) }
    ensures leaves { T.workbook trees.new ≡ T.workbook trees.old }
    ensures words { T.words trees.new ≡ T.words trees.old }
    ensures reads { T.leaves trees.old trees.new }
{
    'words: for word in words {
        add_name(trees, word, sheet, needs)?;
    }
    Ok(())
}

// Adds the node of the name that the word finds on the sheet, where it finds one.
fn add_name<T: Trees>(
    trees: &mut T,
    word: &Text,
    sheet: u32,
    needs: &mut Nodes,
) -> Result<(), AllocError>
    requires numbered { AreNumbered (T.words trees.old) (T.workbook trees.old).names }
    ensures found { OnOk result (AddsFound (T.words trees.old) (T.workbook trees.old).names sheet (word.now ∷ []) (items_of needs.old) (items_of needs.new)) }
    ensures leaves { T.workbook trees.new ≡ T.workbook trees.old }
    ensures words { T.words trees.new ≡ T.words trees.old }
    ensures reads { T.leaves trees.old trees.new }
{
    match trees.find(word.as_str(), sheet)? {
        Some(node) => needs.push(node),
        None => Ok(()),
    }
}
