//! A column of the values of lines, and what opens one.

ghost use Rattle.std.specs.Prelude.{◌≡◌, ℕ, ℤ, List, sum, length, OnOk};
ghost use Rattle.des_columns.specs.Columns.{pieces};
ghost use Rattle.des_columns.specs.Readings.{IsColumnRead};
ghost use Rattle.des_commands.specs.LineColumns.{OpensColumn};

use super::line_kind::LineKind;
use std::alloc::{AllocError, Global};

/// Lines that were read, and their values as a column: one after another. A line without a value
/// has an empty one.
#[derive(Drop)]
pub struct LineColumn {
    pub kinds: Vec<LineKind>,
    pub values: Vec<u8>,
    pub lengths: Vec<usize>,
    /// The texts, each from where its value begins.
    pub texts: Vec<u8>,
    pub text_lengths: Vec<usize>,
    pub statuses: Vec<i32>,
}

impl LineColumn {
    ghost use Rattle.std.specs.Prelude.{◌<◌};
    ghost use Rattle.des_commands.specs.LineColumns.{start_of, text_at, IsWhole};

    /// No lines.
    pub fn new(alloc: Global) -> LineColumn {
        LineColumn {
            kinds: Vec::new(alloc),
            values: Vec::new(alloc),
            lengths: Vec::new(alloc),
            texts: Vec::new(alloc),
            text_lengths: Vec::new(alloc),
            statuses: Vec::new(alloc),
        }
    }

    /// The text of line `at`, the first being 0, which begins at byte `from` of the texts.
    pub fn text(&self, at: usize, from: usize) -> &[u8]
        requires column { IsWhole self.now }
        requires at { at < length self.now.kinds.items }
        requires from { from ≡ start_of self.now.lengths.items at }
        ensures { result.now ≡ text_at self.now.texts.items self.now.lengths.items
            self.now.text_lengths.items at }
    {
        &self.texts[from..from + self.text_lengths[at]]
    }
}

/// What opens the values of a column: a rule with its key.
pub trait Opener {
    /// What a value is opened to: a status of `des_columns`, and a text, which is empty if there is
    /// none.
    ghost opens: { Self → List ℕ → ℤ → List ℕ → Type 0 };

    /// Opens each value, as the calls of `des_columns` do.
    fn open(
        &self,
        values: &[u8],
        lengths: &[usize],
        texts: &mut [u8],
        text_lengths: &mut [usize],
        statuses: &mut [i32],
    )
        requires values { sum lengths.now ≡ length values.now }
        requires texts { length texts.old ≡ length values.now }
        requires text_lengths { length text_lengths.old ≡ length lengths.now }
        requires statuses { length statuses.old ≡ length lengths.now }
        ensures { IsColumnRead (opens self.now) (pieces lengths.now values.now) texts.new
            text_lengths.new statuses.new };
}

/// Opens the values of a column.
pub fn open_column<O: Opener>(opener: &O, column: &mut LineColumn) -> Result<(), AllocError>
    requires { sum column.old.lengths.items ≡ length column.old.values.items }
    ensures { OnOk result (OpensColumn (O.opens opener.now) column.old column.new) }
{
    column.texts.clear();
    column.texts.resize(column.values.len(), 0)?;
    column.text_lengths.clear();
    column.text_lengths.resize(column.lengths.len(), 0)?;
    column.statuses.clear();
    column.statuses.resize(column.lengths.len(), 0)?;
    opener.open(
        &column.values,
        &column.lengths,
        &mut column.texts,
        &mut column.text_lengths,
        &mut column.statuses,
    );
    Ok(())
}
