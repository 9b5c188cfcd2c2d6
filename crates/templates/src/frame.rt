use node_store::Kids;
use sheet_data::Part;

/// A node whose template was begun: the parts that are left of it, and the node's kids.
#[derive(Clone, Copy, Debug)]
pub struct Frame<'a> {
    pub parts: &'a [Part],
    pub kids: Kids<'a>,
}
