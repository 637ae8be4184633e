// The line of stations: its type with what follows from n, t and T, the readings of a ballot byte, and marks.
#![tactic(auto)]

ghost use Rattle.std.specs.Prelude.{◌≡◌};
ghost use Rattle.line.specs.Line.{most_stations, rounds, table_length, has_round, largest_table, exchange_length, outcome_size, outcomes_length, largest_outcomes};
ghost use Rattle.line.specs.Width.{most_bits, tables_length, largest_tables};
ghost use Rattle.line.specs.Ballot.{blank, silence};
ghost use Rattle.line.specs.Marks.{all_marks};

pub mod ballot;
pub mod marks;
pub mod width;

// A line of n stations with the thresholds t and T (document 01, "Names"). T is called upper in code, where names by convention are lower case.
// Any bytes at all may stand in it: header::line_verdict judges them.
#[derive(Clone, Copy, PartialEq, Eq, Debug)]
pub struct Line {
    pub n: u8,
    pub t: u8,
    pub upper: u8,
}

impl Line {
    // The most stations that a line has.
    pub const STATIONS: u8 = 32;

    // The ballot byte blank.
    pub const BLANK: u8 = 2;

    // The ballot byte silence.
    pub const SILENCE: u8 = 255;

    // Marks of all 32 stations.
    pub const ALL: u32 = u32::MAX;

    // The longest run table of any accepted line, in bytes.
    pub const LARGEST_TABLE: usize = 36864;

    // The most bits of a recipe number.
    pub const BITS: u8 = 8;

    // The tables of all bits of the longest number on the longest line, in bytes.
    pub const LARGEST_TABLES: usize = Line::BITS as usize * Line::LARGEST_TABLE;

    // The bytes of a station's outcome: value, grade, flag, and how many rounds had a garbled ballot.
    pub const OUTCOME: usize = 4;

    // The most bytes that the outcomes of a line have.
    pub const LARGEST_OUTCOMES: usize = Line::OUTCOME * Line::STATIONS as usize;

    // R, the rounds of a broadcast.
    pub fn rounds(self) -> usize
        ensures { result ≡ rounds self.t }
    {
        3 * usize::from(self.t) + 6
    }

    // The bytes of a run table, and of a log.
    pub fn table_len(self) -> usize
        ensures { result ≡ table_length self.n self.t }
    {
        let n = usize::from(self.n);
        self.rounds() * n * n
    }

    // The bytes of the tables of a number of w bits, and of its logs.
    pub fn tables_len(self, w: u8) -> usize
        ensures { result ≡ tables_length self.n self.t w }
    {
        usize::from(width::bits(w)) * self.table_len()
    }

    // The bytes of a ballot table for one graded exchange.
    pub fn exchange_len(self) -> usize
        ensures { result ≡ exchange_length self.n }
    {
        let n = usize::from(self.n);
        2 * n * n
    }

    // Whether the bytes of one round, from `start` on, are within a buffer of this length.
    pub fn has_round(self, start: usize, len: usize) -> bool
        ensures { result ≡ has_round self.n start len }
    {
        let n = usize::from(self.n);
        self.n <= Line::STATIONS && start <= len && n * n <= len - start
    }

    // The bytes of all outcomes.
    pub fn outcomes_len(self) -> usize
        ensures { result ≡ outcomes_length self.n }
    {
        Line::OUTCOME * usize::from(self.n)
    }
}

// The constants are the definitions' numbers: this holds by its contract alone.
fn constants_agree()
    ensures { (Line.STATIONS ≡ most_stations) × (Line.BLANK ≡ blank) × (Line.SILENCE ≡ silence) × (Line.ALL ≡ all_marks) }
{}

// The lengths too.
fn lengths_agree()
    ensures { (Line.LARGEST_TABLE ≡ largest_table) × (Line.OUTCOME ≡ outcome_size) × (Line.LARGEST_OUTCOMES ≡ largest_outcomes) }
{}

// And those of recipe numbers.
fn widths_agree()
    ensures { (Line.BITS ≡ most_bits) × (Line.LARGEST_TABLES ≡ largest_tables) }
{}
