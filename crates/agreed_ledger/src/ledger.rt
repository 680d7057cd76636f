//! The ledger: for each row a cell for the record, and one for the verdicts of each resolver.

ghost use Rattle.std.specs.Prelude.{
  ◌≡◌,
  ◌≤◌,
  ◌<◌,
  ◌⊎◌,
  length,
  slice_get,
  All,
  IfOk,
  IfErr,
};
ghost use Rattle.std.specs.declared.option.Option.TheVariants.{Some};
ghost use Rattle.once_cell.specs.Once.{cell_name};
ghost use Rattle.agreed_ledger.specs.Cells.{AllHaveRows, IsLedger, ledger_limit, verdict_cells};
ghost use Rattle.agreed_ledger.specs.declared.refusal.Refusal.TheVariants as refusals;

use crate::naming::Naming;
use crate::refusal::Refusal;
use model::{Config, ResolverNumber, RowNumber};
use once_cell::race::OnceBox;
use request_builder::Record;
use share_judge::Verdicts;
use std::alloc::{AllocError, Global};
use std::marker::{Brand, Model, PhantomData};

/// The most rows of a ledger (this project's profile).
pub const LEDGER_LIMIT: usize = 4_096;

/// A ledger whose cells have no name yet. Each cell can be set once.
#[derive(Drop)]
pub struct BlankLedger {
    records: Vec<OnceBox<Record>>,
    verdicts: Vec<Vec<OnceBox<Verdicts>>>,
    config: Config,
}

impl Model for BlankLedger {
    ghost use Rattle.std.specs.Prelude.{map};
    ghost use Rattle.agreed_ledger.specs.Cells.{Cells, IsLedger, names};

    ghost Value = { Cells };

    ghost view = { λ l. record {
      records = names l.records.items;
      verdicts = map (λ column. names column.items) l.verdicts.items;
      config = l.config;
    } };

    ghost invariant = { λ l. IsLedger (record {
      records = names l.records.items;
      verdicts = map (λ column. names column.items) l.verdicts.items;
      config = l.config;
    }) };
}

impl BlankLedger {
    /// Names the cells. Called in a function that is generic in `N`, which stands for them.
    pub fn named<N: Naming>(self) -> Ledger<N>
        requires { self ≡ N.cells }
        ensures { IsLedger N.cells }
    {
        // (its contract says that there are such numbers, which the clause is about)
        let _config = self.config();
        Ledger {
            blank: self,
            of: PhantomData,
        }
    }

    /// How many rows there are, from 1 to 4,096.
    fn rows(&self) -> usize
        ensures { result ≡ length self.now.records }
    {
        self.records.len()
    }

    /// The numbers of the cluster.
    fn config(&self) -> &Config
        ensures value { result.now ≡ self.now.config }
        ensures kept { IsLedger self.now }
    {
        &self.config
    }

    /// The record cell of the row.
    fn record_cell(&self, row: RowNumber) -> &OnceBox<Record>
        requires { row < length self.now.records }
        ensures { slice_get self.now.records row ≡ Some (cell_name result.now) }
    {
        &self.records[row]
    }

    /// The verdict cell of the row and the resolver.
    fn verdict_cell(&self, row: RowNumber, resolver: ResolverNumber) -> &OnceBox<Verdicts>
        requires { row < length (verdict_cells self.now resolver) }
        ensures { slice_get (verdict_cells self.now resolver) row ≡ Some (cell_name result.now) }
    {
        &self.verdicts[resolver][row]
    }
}

/// A ledger. The naming parameter stands for its cells and its configuration.
#[derive(Drop)]
pub struct Ledger<N: Naming> {
    blank: BlankLedger,
    of: PhantomData<N>,
    pub ghost cells_are: { blank ≡ N.cells },
}

impl Ledger<Brand> {
    /// Makes a ledger of 1 to 4,096 rows, whose cells are empty. For another number of rows returns
    /// `BadConfig`, and otherwise fails only with `OutOfMemory`.
    pub fn new(alloc: Global, rows: usize, config: Config) -> Result<BlankLedger, Refusal>
        ensures made { IfOk result (λ blank. (1 ≤ rows) × (rows ≤ ledger_limit)
            × (length blank.records ≡ rows) × (blank.config ≡ config)) }
        ensures refused { IfErr result (λ refusal.
            ((1 ≤ rows) → rows ≤ ledger_limit → refusal ≡ refusals.OutOfMemory)
            × ((rows ≡ 0) ⊎ (ledger_limit < rows) → refusal ≡ refusals.BadConfig)) }
    {
        if rows < 1 || LEDGER_LIMIT < rows {
            return Err(Refusal::BadConfig);
        }
        let Ok(records) = empty_cells(alloc, rows) else {
            return Err(Refusal::OutOfMemory);
        };
        let Ok(verdicts) = empty_columns(alloc, rows, config.resolvers()) else {
            return Err(Refusal::OutOfMemory);
        };
        Ok(BlankLedger {
            records,
            verdicts,
            config,
        })
    }
}

impl<N: Naming> Ledger<N> {
    /// How many rows there are, from 1 to 4,096.
    pub fn rows(&self) -> usize
        ensures value { result ≡ length N.cells.records }
        ensures kept { IsLedger N.cells }
        ensures columns { AllHaveRows N.cells }
    {
        // (its contract says what the type keeps of the cells)
        let _config = self.config();
        self.blank.rows()
    }

    /// The numbers of the cluster.
    pub fn config(&self) -> &Config
        ensures value { result.now ≡ N.cells.config }
        ensures kept { IsLedger N.cells }
    {
        self.blank.config()
    }

    /// The record cell of the row.
    pub(crate) fn record_cell(&self, row: RowNumber) -> &OnceBox<Record>
        requires { row < length N.cells.records }
        ensures { slice_get N.cells.records row ≡ Some (cell_name result.now) }
    {
        self.blank.record_cell(row)
    }

    /// The verdict cell of the row and the resolver.
    pub(crate) fn verdict_cell(
        &self,
        row: RowNumber,
        resolver: ResolverNumber,
    ) -> &OnceBox<Verdicts>
        requires { row < length (verdict_cells N.cells resolver) }
        ensures { slice_get (verdict_cells N.cells resolver) row ≡ Some (cell_name result.now) }
    {
        self.blank.verdict_cell(row, resolver)
    }
}

/// Empty cells, one for each row.
fn empty_cells<T: Drop>(alloc: Global, rows: usize) -> Result<Vec<OnceBox<T>>, AllocError>
    ensures { IfOk result (λ cells. length cells.items ≡ rows) }
{
    let mut cells = Vec::with_capacity(alloc, rows)?;
    for row in 0..rows {
        cells.push(OnceBox::new(alloc))?;
    }
    Ok(cells)
}

/// For each resolver empty cells, one for each row.
fn empty_columns<T: Drop>(
    alloc: Global,
    rows: usize,
    resolvers: usize,
) -> Result<Vec<Vec<OnceBox<T>>>, AllocError>
    ensures { IfOk result (λ columns. (length columns.items ≡ resolvers)
        × All (λ column. length column.items ≡ rows) columns.items) }
{
    let mut columns = Vec::with_capacity(alloc, resolvers)?;
    for resolver in 0..resolvers {
        columns.push(empty_cells(alloc, rows)?)?;
    }
    Ok(columns)
}
