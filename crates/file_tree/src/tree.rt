ghost use Rattle.std.specs.Prelude.{◌≡◌, ◌<◌, ◌++◌, ◌∷◌, Some, None, length, IfOk, IfSome, OnOk, OnErr, MatchOption};
ghost use Rattle.tree_spec.specs.Trees.{Nodes, root_row as root_row_of, root_alone, node_named, node_at, live_nodes, node_label as node_label_of, is_file as is_file_of, with_node, without_node, with_move, with_labels, is_at_or_below};
ghost use Rattle.tree_spec.specs.Listed.{children, listed_from};

use crate::names::{count, find, listed, put_more, put_name, take_name};
use crate::rows::{moved_row, parent, put_row, relabelled_row, take_row};
use name_map::NameMap;
use smack_base::{Bytes, LabelId};
use std::alloc::{AllocError, Global};
use std::marker::Model;
use tree_spec::{Kind, Listing, NodeLabels, NodeRow};

/// The nodes that were ever made, with an index of the names in each directory, and the count of
/// those that are not gone.
#[derive(Drop)]
pub struct Tree {
    rows: Vec<Option<NodeRow>>,
    below: Vec<NameMap>,
    live: u32,
}

impl Model for Tree {
    ghost use Rattle.tree_spec.specs.Trees.{Nodes};
    ghost use Rattle.file_tree.specs.Indexes.{IsTree};

    ghost Value = { Nodes };

    ghost view = { λ t. t.rows.items };

    ghost invariant = { λ t. IsTree t.rows.items t.below.items t.live };
}

/// The root, with this label.
fn root_row(alloc: Global, label: LabelId) -> NodeRow
    ensures { result ≡ root_row_of label }
{
    NodeRow {
        parent: None,
        name: Bytes::new(alloc),
        kind: Kind::Dir,
        labels: NodeLabels {
            label,
            exec: None,
            map: None,
            transmute: false,
        },
    }
}

impl Tree {
    /// The root alone; its number is 0.
    #[tactic(auto, using(crate::proofs::Sound::first_sound))]
    pub fn new(alloc: Global, label: LabelId) -> Result<Tree, AllocError>
        ensures { IfOk result (λ t. t ≡ root_alone label) }
    {
        let mut rows = Vec::new(alloc);
        rows.push(Some(root_row(alloc, label)))?;
        let mut below = Vec::new(alloc);
        below.push(NameMap::new(alloc))?;
        Ok(Tree {
            rows,
            below,
            live: 1,
        })
    }

    /// The number of the root.
    #[tactic(auto, using(crate::proofs::Sound::root_within))]
    pub fn root(&self) -> u32
        ensures root { result ≡ 0 }
        ensures within { result < length self.now }
    {
        // A read of the rows is what tells the prover that they have a root.
        let _ = self.rows.len();
        0
    }

    /// How many nodes are not gone.
    #[tactic(auto, using(crate::proofs::Sound::live_is))]
    pub fn live(&self) -> u32
        ensures { result ≡ live_nodes self.now }
    {
        self.live
    }

    /// The number of the node of a name in a directory, where there is one.
    #[tactic(auto, using(crate::proofs::Sound::named_is, crate::proofs::Sound::named_within))]
    pub fn look(&self, dir: u32, name: &[u8]) -> Option<u32>
        ensures node { result ≡ node_named self.now dir name.now }
        ensures within { IfSome result (λ n. n < length self.now) }
    {
        find(self.below.as_slice(), dir, name)
    }

    /// The node of a number, where it is not gone.
    #[tactic(auto, using(crate::proofs::Indexed::row_here, crate::proofs::Indexed::row_past))]
    pub fn row(&self, n: u32) -> Option<&NodeRow>
        ensures { MatchOption result (node_at self.now n ≡ None) (λ r. node_at self.now n ≡ Some r.now) }
    {
        if (n as usize) < self.rows.len() {
            self.rows[n as usize].as_ref()
        } else {
            None
        }
    }

    /// The label of a node; the floor label stands for that of a node that is gone.
    pub fn label(&self, n: u32) -> LabelId
        ensures { result ≡ node_label_of self.now n }
    {
        match self.row(n) {
            None => LabelId::FLOOR,
            Some(row) => row.labels.label,
        }
    }

    /// Whether the node of a number is a file.
    pub fn is_file(&self, n: u32) -> bool
        ensures { result ≡ is_file_of self.now n }
    {
        match self.row(n) {
            None => false,
            Some(row) => match row.kind {
                Kind::File => true,
                Kind::Dir => false,
            },
        }
    }

    /// How many names there are in a directory.
    pub fn count(&self, dir: u32) -> u32
        ensures { result ≡ length (children self.now dir) }
    {
        count(self.below.as_slice(), dir) as u32
    }

    /// The names of one listing of a directory, from this place on in byte order, counted from 0.
    pub fn names(&self, alloc: Global, dir: u32, at: u32) -> Result<Listing, AllocError>
        ensures { IfOk result (λ list. list ≡ listed_from at (children self.now dir)) }
    {
        listed(alloc, self.below.as_slice(), dir, at)
    }

    /// Makes a node in a directory, under a name that is free there. Nothing changes where memory is
    /// wanted, or where no number is left.
    pub fn add(
        &mut self,
        alloc: Global,
        dir: u32,
        name: &[u8],
        kind: Kind,
        labels: NodeLabels,
    ) -> Result<u32, AllocError>
        requires within { dir < length self.old }
        requires free { node_named self.old dir name.now ≡ None }
        ensures number { IfOk result (λ n. n ≡ length self.old) }
        ensures ok { OnOk result (self.new ≡ with_node self.old (record { parent = Some dir; name = name.now; kind = kind; labels = labels })) }
        ensures err { OnErr result (self.new ≡ self.old) }
    {
        if self.rows.len() >= u32::MAX as usize {
            return Err(AllocError);
        }
        let key = Bytes::from_slice(alloc, name)?;
        let own = Bytes::from_slice(alloc, name)?;
        let number = self.rows.len() as u32;
        self.rows.reserve(1)?;
        if let Err(error) = put_more(alloc, &mut self.below, dir, key, number) {
            return Err(error);
        }
        self.rows
            .push(Some(NodeRow {
                parent: Some(dir),
                name: own,
                kind,
                labels,
            }))
            .unwrap();
        self.live += 1;
        Ok(number)
    }

    /// Takes a node away. Nothing asks here that a directory is empty.
    pub fn remove(&mut self, n: u32)
        ensures { self.new ≡ without_node self.old n }
    {
        if n as usize >= self.rows.len() {
            return;
        }
        let Some(row) = take_row(&mut self.rows, n) else {
            return;
        };
        self.live -= 1;
        let Some(dir) = row.parent else {
            return;
        };
        take_name(&mut self.below, dir, row.name.items());
    }

    /// Gives a node, which is not the root, another place, under a name that is free there. Nothing
    /// changes where memory is wanted.
    pub fn move_to(
        &mut self,
        alloc: Global,
        n: u32,
        dir: u32,
        name: &[u8],
    ) -> Result<(), AllocError>
        requires within { dir < length self.old }
        requires free { node_named self.old dir name.now ≡ None }
        ensures ok { OnOk result (self.new ≡ with_move self.old n dir name.now) }
        ensures err { OnErr result (self.new ≡ self.old) }
    {
        let Some(from) = parent(&self.rows, n) else {
            return Ok(());
        };
        let key = Bytes::from_slice(alloc, name)?;
        let own = Bytes::from_slice(alloc, name)?;
        if let Err(error) = put_name(&mut self.below, dir, key, n) {
            return Err(error);
        }
        if let Some(row) = take_row(&mut self.rows, n) {
            take_name(&mut self.below, from, row.name.items());
            put_row(&mut self.rows, n, moved_row(row, dir, own));
        }
        Ok(())
    }

    /// Gives a node other attributes.
    pub fn set_labels(&mut self, n: u32, labels: NodeLabels)
        ensures { self.new ≡ with_labels self.old n labels }
    {
        if n as usize >= self.rows.len() {
            return;
        }
        if let Some(row) = take_row(&mut self.rows, n) {
            put_row(&mut self.rows, n, relabelled_row(row, labels));
        }
    }

    /// Whether a directory is a node or stands below it.
    #[tactic(auto, using(crate::proofs::Above::above_none, crate::proofs::Above::above_here, crate::proofs::Above::above_next, crate::proofs::Above::above_end))]
    pub fn is_at_or_below(&self, n: u32, dir: u32) -> bool
        ensures { result ≡ is_at_or_below self.now n dir }
    {
        let mut at = Some(dir);
        for step in 0..self.rows.len() {
            let _ = step;
            match at {
                None => return false,
                Some(d) => {
                    if d == n {
                        return true;
                    }
                    at = parent(&self.rows, d);
                }
            }
        }
        false
    }
}
