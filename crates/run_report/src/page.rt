ghost use Rattle.std.specs.Prelude.{◌≡◌, [], ◌∷◌, ◌++◌, IfOk, OnOk};
ghost use Rattle.log_spec.specs.Words.{feed};

use smack_base::Bytes;
use std::alloc::{AllocError, Global};
use std::marker::Model;

/// Lines that wait to be written, each with its line feed. The memory of lines that were taken away
/// serves those that come after them.
#[derive(Drop)]
pub struct Page {
    lines: Vec<Bytes>,
    spare: Vec<Bytes>,
}

impl Model for Page {
    ghost use Rattle.std.specs.Prelude.{List, ℕ};

    ghost Value = { List (List ℕ) };

    ghost view = { λ p. p.lines.items };
}

impl Page {
    /// A page without lines.
    pub fn new(alloc: Global) -> Page
        ensures { result ≡ [] }
    {
        Page {
            lines: Vec::new(alloc),
            spare: Vec::new(alloc),
        }
    }

    /// The lines, in order.
    pub fn lines(&self) -> &[Bytes]
        ensures { result.now ≡ self.now }
    {
        self.lines.as_slice()
    }

    fn blank(&mut self) -> Vec<u8>
        ensures same { self.new ≡ self.old }
        ensures line { result.items ≡ [] }
    {
        match self.spare.pop() {
            Some(line) => {
                let mut line = line.into_vec();
                line.clear();
                line
            }
            None => Vec::new(*self.lines.allocator()),
        }
    }

    /// A line that begins with these bytes; it is none of the page before it is kept there.
    pub fn begin(&mut self, first: &[u8]) -> Result<Vec<u8>, AllocError>
        ensures same { self.new ≡ self.old }
        ensures line { IfOk result (λ line. line.items ≡ first.now) }
    {
        let mut line = self.blank();
        line.extend_from_slice(first)?;
        Ok(line)
    }

    /// Puts a whole line last.
    pub fn keep(&mut self, line: Vec<u8>) -> Result<(), AllocError>
        ensures { OnOk result (self.new ≡ self.old ++ line.items ∷ []) }
    {
        self.lines.push(Bytes::from_vec(line))?;
        Ok(())
    }

    /// Ends a line with its line feed and puts it last.
    pub fn end(&mut self, line: Vec<u8>) -> Result<(), AllocError>
        ensures { OnOk result (self.new ≡ self.old ++ (line.items ++ feed) ∷ []) }
    {
        let mut line = line;
        line.extend_from_slice(b"\n")?;
        self.keep(line)
    }

    /// Takes all lines away.
    pub fn clear(&mut self) -> Result<(), AllocError>
        ensures { OnOk result (self.new ≡ []) }
    {
        while let Some(line) = self.lines.pop() {
            self.spare.push(line)?;
        }
        Ok(())
    }
}
