// The index of a token file's fields: where each begins, and by its number its class and its payload.
#![tactic(auto)]

ghost use Rattle.std.specs.Prelude.{◌≡◌, ◌++◌, Ok, length, drop, get_or};
ghost use Rattle.files.specs.Entry.{answered};
ghost use Rattle.payloads.specs.Fields.{fields_of};
ghost use Rattle.payloads.specs.Index.{held, begins, laid, start_of, class_by, size_by, payload_by};

use fields::HEAD;
use refusals::Refusal;

// The most fields of a file: each has a tag and a length.
pub const FIELDS: usize = files::MOST / HEAD;

// No class. A byte and no Option, as the theorems on the fields' definition compare it with the tags.
pub const NO_CLASS: u8 = 11;

// Lays where the fields of an accepted file begin over the front of the index: each behind the payload of the one before it.
fn lay(file: &[u8], count: usize, starts: &mut [u16; FIELDS])
    requires { answered (held file.now) ≡ Ok count }
    ensures { starts.new ≡ begins 0 (fields_of file.now) ++ drop count starts.old }
{
    let mut at = 0;
    for start in &mut starts[..count] {
        *start = at as u16;
        at += HEAD + size_at(file, *start);
    }
}

// Lays the index of a file, where its fields begin in front and zeros behind, and answers how many fields it has; all zeros after a refusal. The reader of
// token files finds the refusal, and leaves the words of the fields where the index is laid.
pub fn index(file: &[u8], starts: &mut [u16; FIELDS]) -> Result<usize, Refusal>
    ensures answer { result ≡ answered (held file.now) }
    ensures starts { starts.new ≡ laid file.now (held file.now) }
{
    match files::read(file, starts) {
        Ok(count) => {
            lay(file, count, starts);
            Ok(count)
        }
        // No `?`: the edit `place_lost` changes this arm.
        Err(refusal) => Err(refusal),
    }
}

// Where the field with a number begins by an index: 0 behind its end.
fn start_at(starts: &[u16], place: usize) -> u16
    ensures { result ≡ start_of starts.now place }
{
    starts.get(place).copied().unwrap_or(0)
}

// The byte at a place, and another behind the end.
fn byte_at(file: &[u8], at: usize, none: u8) -> u8
    ensures { result ≡ get_or file.now at none }
{
    file.get(at).copied().unwrap_or(none)
}

// The length of the payload of a field that begins at a place: two bytes, the high one first.
#[tactic(auto, unfolding(crate::specs::Index::size_by))]
fn size_at(file: &[u8], start: u16) -> usize
    ensures { result ≡ size_by file.now start }
{
    let high = byte_at(file, start as usize + 1, 0);
    let low = byte_at(file, start as usize + 2, 0);
    u16::from_be_bytes([high, low]) as usize
}

// A file, where its fields begin and how many there are. Any file, index and count make one.
#[derive(Clone, Copy, Debug, PartialEq, Eq)]
pub struct Indexed<'f, 's> {
    pub file: &'f [u8],
    pub starts: &'s [u16; FIELDS],
    pub count: usize,
}

impl<'f> Indexed<'f, '_> {
    // The class of the field with a number.
    #[tactic(auto, unfolding(crate::specs::Index::class_by))]
    pub fn class_at(self, place: usize) -> u8
        ensures { result ≡ class_by self.entry.file.now self.entry.starts.now self.entry.count place }
    {
        let Indexed {
            file,
            starts,
            count,
        } = self;
        if place < count {
            byte_at(file, start_at(starts, place) as usize, NO_CLASS)
        } else {
            NO_CLASS
        }
    }

    // The payload of the field with a number: as many bytes as there are of it.
    pub fn payload(self, place: usize) -> &'f [u8]
        ensures { result.now ≡ payload_by self.entry.file.now self.entry.starts.now self.entry.count place }
    {
        let Indexed {
            file,
            starts,
            count,
        } = self;
        if count <= place {
            return &[];
        }
        let start = start_at(starts, place);
        let part = file.get(start as usize + HEAD..).unwrap_or(&[]);
        &part[..size_at(file, start).min(part.len())]
    }
}

// The class of the field with a number, by the index of so many fields.
pub fn class_at(file: &[u8], starts: &[u16; FIELDS], count: usize, place: usize) -> u8
    ensures { result ≡ class_by file.now starts.now count place }
{
    let indexed = Indexed {
        file,
        starts,
        count,
    };
    indexed.class_at(place)
}

// The payload of the field with a number, by the index of so many fields.
pub fn payload<'a>(file: &'a [u8], starts: &[u16; FIELDS], count: usize, place: usize) -> &'a [u8]
    ensures { result.now ≡ payload_by file.now starts.now count place }
{
    let indexed = Indexed {
        file,
        starts,
        count,
    };
    indexed.payload(place)
}
