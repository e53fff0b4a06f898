use label_table::Labels;
use smack_base::Bytes;

/// What ids stand for in a text: the labels, and the names of the tasks by pid.
#[derive(Drop)]
pub struct Spelling<'a> {
    pub labels: &'a Labels,
    pub names: &'a [Bytes],
}
