// Update records: read one, write one, and the serial that a stream expects next. A record is 15 bytes, big-endian: length (2),
// version, kind, serial (4), address (4), prefix length, hop (2). What only tables can judge is not judged here.
#![tactic(auto)]

ghost use Rattle.std.specs.Prelude.{◌≡◌};
ghost use Rattle.ground.specs.Refusals.{code_of};
ghost use Rattle.records.specs.Record.{byte_of, kind_of, stray_hop, fields, encoded, reading_of, judged, read_as, Writes, next_serial};

use ground::refusal::Refusal;

// What an update asks of the tables. As a number it is the byte of the record.
#[derive(Clone, Copy, Debug, PartialEq, Eq)]
pub enum Kind {
    Announce = 1,
    Withdraw = 2,
    ReHome = 3,
}

impl TryFrom<u8> for Kind {
    type Error = Refusal;

    ghost try_from_gives = { λ byte outcome. outcome ≡ kind_of byte };

    fn try_from(byte: u8) -> Result<Kind, Refusal> {
        match byte {
            Update::ANNOUNCE => Ok(Kind::Announce),
            Update::WITHDRAW => Ok(Kind::Withdraw),
            Update::RE_HOME => Ok(Kind::ReHome),
            _ => Err(Refusal::WrongKind),
        }
    }
}

// An update as C has it. Its fields have the widths of the record, and its kind may be any byte.
#[repr(C)]
#[derive(Clone, Copy, Default)]
pub struct Update {
    pub kind: u8,
    pub serial: u32,
    pub address: u32,
    pub length: u8,
    pub hop: u16,
}

impl Update {
    // The bytes of a record.
    pub const SIZE: usize = 15;

    // What the length field says: the bytes that follow it.
    pub const LENGTH_FIELD: u16 = 13;

    pub const VERSION: u8 = 1;

    // The kinds, each as the byte of a record.
    pub const ANNOUNCE: u8 = Kind::Announce as u8;

    pub const WITHDRAW: u8 = Kind::Withdraw as u8;

    pub const RE_HOME: u8 = Kind::ReHome as u8;
}

// What reading gives, as C has it: 0 and the update, or the number of a refusal and an all-zero update.
#[repr(C)]
#[derive(Clone, Copy)]
pub struct Reading {
    pub code: u32,
    pub update: Update,
}

impl From<Result<Update, Refusal>> for Reading {
    ghost from_gives = { λ outcome reading. reading ≡ reading_of outcome };

    fn from(outcome: Result<Update, Refusal>) -> Reading {
        match outcome {
            Ok(update) => Reading { code: 0, update },
            Err(refusal) => Reading {
                code: refusal.into(),
                update: Update::default(),
            },
        }
    }
}

// A withdraw names no hop.
fn has_stray_hop(kind: Kind, hop: u16) -> bool
    ensures { result ≡ stray_hop (byte_of kind) hop }
{
    kind == Kind::Withdraw && hop != 0
}

// The fields of a record, whatever its length field and its version say.
impl From<&[u8; Update::SIZE]> for Update {
    ghost from_gives = { λ bytes update. update ≡ fields bytes.now };

    fn from(bytes: &[u8; Update::SIZE]) -> Update {
        Update {
            kind: bytes[3],
            serial: u32::from_be_bytes([bytes[4], bytes[5], bytes[6], bytes[7]]),
            address: u32::from_be_bytes([bytes[8], bytes[9], bytes[10], bytes[11]]),
            length: bytes[12],
            hop: u16::from_be_bytes([bytes[13], bytes[14]]),
        }
    }
}

// The record of an update.
impl From<Update> for [u8; Update::SIZE] {
    ghost from_gives = { λ update bytes. bytes ≡ encoded update };

    fn from(update: Update) -> [u8; Update::SIZE] {
        let mut bytes = [0; Update::SIZE];
        bytes[..2].copy_from_slice(&Update::LENGTH_FIELD.to_be_bytes());
        bytes[2] = Update::VERSION;
        bytes[3] = update.kind;
        bytes[4..8].copy_from_slice(&update.serial.to_be_bytes());
        bytes[8..12].copy_from_slice(&update.address.to_be_bytes());
        bytes[12] = update.length;
        bytes[13..].copy_from_slice(&update.hop.to_be_bytes());
        bytes
    }
}

// The tests on the fields, of a record whose length and version are right.
fn judge(update: Update, expected: u32) -> Result<Update, Refusal>
    ensures { reading_of result ≡ judged update expected }
{
    let kind = Kind::try_from(update.kind)?;
    if update.serial != expected {
        return Err(Refusal::WrongSerial);
    }
    if has_stray_hop(kind, update.hop) {
        return Err(Refusal::WithdrawWithHop);
    }
    Ok(update)
}

// Reads the record that the first bytes hold, under the serial that is expected.
#[tactic(auto, unfolding(crate::specs::Record::read_as))]
pub fn read(bytes: &[u8], expected: u32) -> Result<Update, Refusal>
    ensures { reading_of result ≡ read_as bytes.now expected }
{
    let Some(length_field) = bytes.first_chunk() else {
        return Err(Refusal::CutRecord);
    };
    if u16::from_be_bytes(*length_field) != Update::LENGTH_FIELD {
        return Err(Refusal::WrongLengthField);
    }
    let Some(record) = bytes.first_chunk() else {
        return Err(Refusal::CutRecord);
    };
    if record[2] != Update::VERSION {
        return Err(Refusal::WrongVersion);
    }
    judge(Update::from(record), expected)
}

// Writes the record of an update into the first bytes of the room. A refused write leaves the room as it was.
#[tactic(auto, unfolding(crate::specs::Record::write_as))]
pub fn write(room: &mut [u8], update: Update) -> Result<(), Refusal>
    ensures { Writes room.old update (code_of result) room.new }
{
    let Some(record) = room.first_chunk_mut() else {
        return Err(Refusal::NoRecordRoom);
    };
    let kind = Kind::try_from(update.kind)?;
    if has_stray_hop(kind, update.hop) {
        return Err(Refusal::WithdrawWithHop);
    }
    *record = update.into();
    Ok(())
}

// The serial that a stream expects after it accepted a record of this one.
pub fn next_serial(serial: u32) -> u32
    ensures { result ≡ next_serial serial }
{
    serial.wrapping_add(1)
}
