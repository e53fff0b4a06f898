ghost use Rattle.std.specs.Prelude.{◌≡◌, ◌<◌, ◌+◌, [], length, position, IfSome, OnOk, OnErr};
ghost use Rattle.world_spec.specs.Worlds.{most_nodes, label_of, is_named, with_file, without_file};

use smack_base::LabelId;
use std::alloc::{AllocError, Global};
use std::marker::Model;
use world_spec::FileRow;

/// The files of the root directory, the oldest first. The root and they are at most 65,536 nodes.
#[derive(Drop)]
pub struct RootFiles {
    rows: Vec<FileRow>,
}

impl Model for RootFiles {
    ghost use Rattle.std.specs.Prelude.{List, length, ◌<◌};
    ghost use Rattle.world_spec.specs.declared.FileRow.{FileRow};
    ghost use Rattle.world_spec.specs.Worlds.{most_nodes};

    ghost Value = { List FileRow };

    ghost view = { λ f. f.rows.items };

    ghost invariant = { λ f. length f.rows.items < most_nodes };
}

fn place_of(rows: &[FileRow], name: &[u8]) -> Option<usize>
    ensures place { result ≡ position (is_named name.now) rows.now }
    ensures within { IfSome result (λ at. at < length rows.now) }
{
    rows.iter().position(|row| row.name.items() == name)
}

impl RootFiles {
    /// No files.
    pub fn new(alloc: Global) -> RootFiles
        ensures { result ≡ [] }
    {
        RootFiles {
            rows: Vec::new(alloc),
        }
    }

    /// How many files there are.
    pub fn len(&self) -> u32
        ensures count { result ≡ length self.now }
        ensures limit { length self.now < most_nodes }
    {
        self.rows.len() as u32
    }

    /// The files.
    pub fn rows(&self) -> &[FileRow]
        ensures { result.now ≡ self.now }
    {
        self.rows.as_slice()
    }

    /// The label of the file of this name, where there is one.
    pub fn label_of(&self, name: &[u8]) -> Option<LabelId>
        ensures { result ≡ label_of self.now name.now }
    {
        self.rows
            .iter()
            .find(|row| row.name.items() == name)
            .map(|row| row.label)
    }

    /// Puts a file last; on want of memory nothing changes.
    #[tactic(auto, using(crate::proofs::Rooms::one_more_file))]
    pub fn put(&mut self, file: FileRow) -> Result<(), AllocError>
        requires { length self.old + 1 < most_nodes }
        ensures ok { OnOk result (self.new ≡ with_file self.old file) }
        ensures err { OnErr result (self.new ≡ self.old) }
    {
        self.rows.push(file)?;
        Ok(())
    }

    /// Takes the file of this name away, where there is one.
    pub fn take(&mut self, name: &[u8])
        ensures { self.new ≡ without_file self.old name.now }
    {
        if let Some(at) = place_of(self.rows.as_slice(), name) {
            let _ = self.rows.remove(at);
        }
    }
}
