use rules_spec::Batch;
use std::collections::LinkedList;

/// What a seat knows. No value of it is made: contracts alone speak of it.
pub struct View<E> {
    /// The seat's own number first, then those of the seats that it adopted. A notice has none.
    pub numbers: LinkedList<u64>,
    /// The journal that the seat has seen.
    pub journal: LinkedList<Batch>,
    /// The history that the seat has met.
    pub history: LinkedList<E>,
    /// The numbers that were joined in, until the next look at the rows.
    pub told_numbers: LinkedList<u64>,
    /// The journal that was joined in, until then.
    pub told_journal: LinkedList<Batch>,
    /// The history that was joined in, until then.
    pub told_history: LinkedList<E>,
    /// Whether the seat has the pen.
    pub pen: bool,
    /// The rows that it has filled and not published.
    pub filled: LinkedList<u64>,
    /// Whether the seat has the turn.
    pub turn: bool,
    /// Whether it made a notice in this turn.
    pub noticed: bool,
    /// Whether it is the first notice of a turn, which may draw a number.
    pub marked: bool,
    /// So many numbers are drawn, or more.
    pub known: u64,
    /// So many rows it has loaded, each time that it loaded one.
    pub loads: u64,
    /// So many rows each seat had loaded that it adopted, and each that those had adopted.
    pub ended_loads: LinkedList<u64>,
    /// So often it looked at what is published, other than where it heard another seat.
    pub looks: u64,
    /// So often it took the pen.
    pub pens: u64,
    /// So often it met the pen or the turn in another's hand, or a word that had changed where it
    /// reached for the pen.
    pub misses: u64,
}
