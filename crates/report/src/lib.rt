// The lines that the programs write, and their parts. Inside the library. Each part asks what it takes at most.
// They are no `write!`: that answers an error where a text does not fit, and no contract of it says that one fits.
#![tactic(auto)]

ghost use Rattle.std.specs.Prelude.{◌≡◌, [], ◌∷◌, ◌++◌, ◌+◌, ◌≤◌, length};
ghost use Rattle.std.specs.Float.{binary64};
ghost use Rattle.std.specs.Float.Ieee.{to_bits};
ghost use Rattle.scope.specs.Text.{decimal, hex_of, line};
ghost use Rattle.scope.specs.Origin.{origin_text};
ghost use Rattle.scope.specs.Program.{cut_line};
ghost use Rattle.optimizer.specs.Records.{to_origin, to_record};
ghost use Rattle.report.specs.Fields.{ended_by, line_room};
ghost use Rattle.report.specs.Written.{Put, RoomFor};

use optimizer::optimizer_result::{GainRecord, Origin};
use rows::{Position, Segment};

// A lent slice that is being written: its next byte stands at `at`. Each function moves `at` behind what it wrote.
#[derive(Drop)]
pub struct Page<'a> {
    pub out: &'a mut [u8],
    pub at: usize,
}

// The bits of a gain; a NaN's are those of the one NaN that the definitions know.
fn bits_of(gain: f64) -> u64
    ensures { result ≡ to_bits binary64 gain }
{
    if gain.is_nan() {
        return 0x7ff8_0000_0000_0000;
    }
    gain.to_bits()
}

impl<'a> Page<'a> {
    // Bytes as they stand.
    pub fn put_text(&mut self, text: &[u8])
        requires { RoomFor (length text.now) self.old }
        ensures { Put self.old text.now self.new }
    {
        let end = self.at + text.len();
        self.out[self.at..end].copy_from_slice(text);
        self.at = end;
    }

    fn put_byte(&mut self, byte: u8)
        requires { RoomFor 1 self.old }
        ensures { Put self.old (byte ∷ []) self.new }
    {
        self.put_text(&[byte]);
    }

    // A number in decimal.
    pub fn put_decimal(&mut self, v: u64)
        requires { RoomFor (length (decimal v)) self.old }
        ensures written { Put self.old (decimal v) self.new }
        ensures most { self.new.at ≤ self.old.at + 20 }
    {
        let mut digits = [0u8; 20];
        let k = io::decimal(v, &mut digits);
        self.put_text(&digits[..k]);
    }

    // Bits as 16 hex digits.
    pub fn put_hex(&mut self, bits: u64)
        requires { RoomFor 16 self.old }
        ensures written { Put self.old (hex_of 16 bits) self.new }
        ensures most { self.new.at ≤ self.old.at + 16 }
    {
        let mut digits = [0u8; 16];
        let k = io::hex(bits, 16, &mut digits);
        self.put_text(&digits[..k]);
    }

    // A word, the first field of a line, and its tab.
    pub fn put_word(&mut self, word: &[u8])
        requires { RoomFor (length word.now + 1) self.old }
        ensures { Put self.old (word.now ++ (9 ∷ [])) self.new }
    {
        self.put_text(word);
        self.put_byte(b'\t');
    }

    // A number, and the byte that ends it.
    pub fn put_number(&mut self, v: u64, end: u8)
        requires { RoomFor 21 self.old }
        ensures written { Put self.old (decimal v ++ (end ∷ [])) self.new }
        ensures most { self.new.at ≤ self.old.at + 21 }
    {
        self.put_decimal(v);
        self.put_byte(end);
    }

    // A line of a word and a number: the first malformed line's, a refusal's, how many cuts follow, how many nodes the tree has.
    pub fn put_count(&mut self, word: &[u8], v: u64)
        requires { RoomFor (length word.now + 22) self.old }
        ensures written { Put self.old (line (word.now ∷ decimal v ∷ [])) self.new }
        ensures most { self.new.at ≤ self.old.at + length word.now + 22 }
    {
        self.put_word(word);
        self.put_number(v, b'\n');
    }

    // A segment's ends, and the byte after them.
    pub fn put_ends(&mut self, ends: Segment, end: u8)
        requires { RoomFor 42 self.old }
        ensures written { Put self.old (ended_by end (decimal ends.start.0 ∷ decimal ends.stop.0 ∷ [])) self.new }
        ensures most { self.new.at ≤ self.old.at + 42 }
    {
        self.put_number(ends.start.0 as u64, b'\t');
        self.put_number(ends.stop.0 as u64, end);
    }

    // A word with its tab, a row, its gain's bits in a segment, the segment's ends, and the byte after them.
    pub fn put_gain(&mut self, word: &[u8], row: Position, gain: f64, ends: Segment, end: u8)
        requires { RoomFor (length word.now + 80) self.old }
        ensures written { Put self.old (word.now ++ ended_by end (decimal row.0 ∷ hex_of 16 (to_bits binary64 gain) ∷ decimal ends.start.0 ∷ decimal ends.stop.0 ∷ [])) self.new }
        ensures most { self.new.at ≤ self.old.at + length word.now + 80 }
    {
        self.put_text(word);
        self.put_number(row.0 as u64, b'\t');
        self.put_hex(bits_of(gain));
        self.put_byte(b'\t');
        self.put_ends(ends, end);
    }

    // A word with its blank, and a number.
    fn put_numbered(&mut self, word: &[u8], v: u64)
        requires { RoomFor (length word.now + length (decimal v)) self.old }
        ensures written { Put self.old (word.now ++ decimal v) self.new }
        ensures most { self.new.at ≤ self.old.at + length word.now + 20 }
    {
        self.put_text(word);
        self.put_decimal(v);
    }

    // An origin: `direct`, `layer K` or `draw K`. It asks just the room that its text takes.
    #[tactic(auto, unfolding(scope::specs::Origin::origin_text, scope::specs::Text::bytes))]
    pub fn put_origin(&mut self, origin: Origin)
        requires { RoomFor (length (origin_text (to_origin origin))) self.old }
        ensures written { Put self.old (origin_text (to_origin origin)) self.new }
        ensures most { self.new.at ≤ self.old.at + 26 }
    {
        match origin {
            Origin::Direct => self.put_text(b"direct"),
            Origin::Layer(k) => self.put_numbered(b"layer ", k as u64),
            Origin::Draw(k) => self.put_numbered(b"draw ", k as u64),
        }
    }

    // An origin, the last field of a line.
    pub fn put_last_origin(&mut self, origin: Origin)
        requires { RoomFor 27 self.old }
        ensures written { Put self.old (line (origin_text (to_origin origin) ∷ [])) self.new }
        ensures most { self.new.at ≤ self.old.at + 27 }
    {
        self.put_origin(origin);
        self.put_byte(b'\n');
    }

    // A cut: its row, the gain's bits, and the chosen record's ends and origin.
    pub fn put_cut(&mut self, cut: GainRecord)
        requires { RoomFor line_room self.old }
        ensures written { Put self.old (cut_line (to_record cut)) self.new }
        ensures most { self.new.at ≤ self.old.at + line_room }
    {
        self.put_gain(b"cut\t", cut.best_split, cut.max_gain, cut.segment(), b'\t');
        self.put_last_origin(cut.origin);
    }
}
