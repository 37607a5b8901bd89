// What a structural operation leaves of the nodes of a graph, and of the links of those that it doesn't bend.
ghost use Rattle.dep_graph.specs.Laws.{LinksStayInside, UnbentNodesKeepTheirLinks};

/// Every sound operation leaves the nodes of a graph within the limits of a sheet, where they were within them.
pub fn links_stay_inside()
    ensures { LinksStayInside }
{}

/// Over every sound operation, a cell or a name that is neither lost nor bent keeps its links: it is then linked to just
/// the nodes that its needs have moved to, and each of these goes back to where it was. That holds where the node itself
/// and all linked nodes are within the limits of a sheet.
pub fn unbent_nodes_keep_their_links()
    ensures { UnbentNodesKeepTheirLinks }
{}
