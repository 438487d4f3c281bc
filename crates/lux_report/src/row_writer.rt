// A writer of rows.
ghost use Rattle.std.specs.Prelude.{◌≡◌, [], ◌∷◌, OnOk, IfOk};
ghost use Rattle.std.specs.Fmt.{decimal};
ghost use Rattle.csv.specs.Records.{fields_of, partial_of};
ghost use Rattle.lux_report.specs.Shapes.{bytes_of, IsBetweenRows, Gathers, Writes};

use csv::{ByteRecord, Writer};
use itoa::{Buffer, Integer};
use std::alloc::{AllocError, Global};

/// A writer of rows into a vector, and the row that is gathered for it. All rows have one length, so that the
/// writer refuses them for want of memory alone.
#[derive(Drop)]
pub(crate) struct RowWriter {
    writer: Writer<Vec<u8>>,
    row: ByteRecord,
}

impl RowWriter {
    /// A writer that has written nothing, into a vector with room for so many bytes.
    pub(crate) fn new(alloc: Global, room: usize) -> Result<RowWriter, AllocError>
        ensures between { IfOk result (λ rows. IsBetweenRows rows.writer) }
        ensures empty { IfOk result (λ rows. bytes_of rows.writer ≡ []) }
    {
        Ok(RowWriter {
            writer: Writer::from_writer(Vec::with_capacity(alloc, room)?),
            row: ByteRecord::new(alloc),
        })
    }

    /// Begins a row.
    pub(crate) fn begin(&mut self)
        ensures { Gathers self.old [] self.new [] }
    {
        self.row.clear();
    }

    /// Begins a row by what it is of, a name and an index.
    pub(crate) fn start(&mut self, kind: &str, name: &str, index: usize) -> Result<(), AllocError>
        ensures { OnOk result (Gathers self.old [] self.new (kind.now ∷ name.now ∷ decimal index ∷ [])) }
    {
        self.begin();
        self.field(kind)?;
        self.field(name)?;
        self.number(index)
    }

    /// Adds a field to the row.
    pub(crate) fn field(&mut self, text: &str) -> Result<(), AllocError>
        requires { partial_of self.old.row ≡ [] }
        ensures { OnOk result (Gathers self.old (fields_of self.old.row) self.new (text.now ∷ [])) }
    {
        self.row.push_field(text.as_bytes())
    }

    /// Adds a number to the row.
    pub(crate) fn number<N: Integer>(&mut self, number: N) -> Result<(), AllocError>
        requires { partial_of self.old.row ≡ [] }
        ensures { OnOk result (Gathers self.old (fields_of self.old.row) self.new (N.text number ∷ [])) }
    {
        self.row.push_field(Buffer::new().format(number).as_bytes())
    }

    /// Writes the row.
    pub(crate) fn end(&mut self) -> Result<(), AllocError>
        requires { IsBetweenRows self.old.writer }
        ensures { OnOk result (Writes self.old self.new (fields_of self.old.row ∷ [])) }
    {
        let Ok(()) = self.writer.write_byte_record(&self.row) else {
            return Err(AllocError);
        };
        Ok(())
    }

    /// All bytes that were written.
    pub(crate) fn into_bytes(self) -> Result<Vec<u8>, AllocError>
        ensures { IfOk result (λ bytes. bytes.items ≡ bytes_of self.writer) }
    {
        match self.writer.into_inner() {
            Ok(bytes) => Ok(bytes),
            Err(_) => Err(AllocError),
        }
    }
}
