//! Tables whose texts lie in a pool.

ghost use Rattle.std.specs.Prelude.{◌≡◌, ◌++◌, [], ◌∷◌, All, map, IfOk, OnOk};
ghost use Rattle.row_store.specs.Tuple.{ids_of};
ghost use Rattle.value_pool.specs.Pool.{KeepsIds};
ghost use Rattle.row_takers.specs.Taken.{texts_in, texts_of, HaveTexts};

use crate::taker::RowTaker;
use hash_keys::HashKeys;
use row_store::Tuple;
use std::alloc::{AllocError, Global};
use std::marker::Model;
use std::mem;
use std::rc::RcSlice;
use text_lists::{List, Text, Texts};
use value_pool::{Pool, ValueId};

// How many bytes of a file come to one new text, by a guess. Where fewer texts come, the table of hashes that was made for
// them takes half the length of the file, and nine tenths at most.
const NEW_TEXT_BYTES: usize = 16;

/// The tables that were read, and the rows so far of the one that is being read. Clauses see their texts.
#[derive(Drop)]
pub struct PooledTables {
    pool: Pool,
    tables: Vec<Vec<Tuple>>,
    rows: Vec<Tuple>,
    // Room for the ids of one row.
    ids: Vec<ValueId>,
}

impl Model for PooledTables {
    ghost use Rattle.std.specs.Prelude.{map};
    ghost use Rattle.row_takers.specs.Taken.{TablesTaken, rows_in, IsPooled};

    ghost Value = { TablesTaken };

    ghost view = { λ t. record { tables = map (λ table. rows_in t.pool table.items) t.tables.items; rows = rows_in t.pool t.rows.items } };

    ghost invariant = { λ t. IsPooled t.pool t.tables.items t.rows.items };
}

impl PooledTables {
    /// No tables yet. Texts are looked up by a hash with these keys.
    pub fn new(alloc: Global, keys: HashKeys) -> PooledTables
        ensures { result ≡ record { tables = []; rows = [] } }
    {
        PooledTables {
            pool: Pool::with_hasher(alloc, keys),
            tables: Vec::new(alloc),
            rows: Vec::new(alloc),
            ids: Vec::new(alloc),
        }
    }

    /// The tables of texts.
    pub fn of_texts(
        alloc: Global,
        keys: HashKeys,
        tables: List<List<Texts>>,
    ) -> Result<PooledTables, AllocError>
        ensures { IfOk result (λ pooled. pooled ≡ record { tables = tables; rows = [] }) }
    {
        let mut pooled = PooledTables::new(alloc, keys);
        for table in tables.into_vec() {
            pooled.put_table(alloc, table)?;
        }
        Ok(pooled)
    }

    // Each row of texts is dropped as soon as it is in the pool.
    fn put_table(&mut self, alloc: Global, table: List<Texts>) -> Result<(), AllocError>
        requires { self.old.rows ≡ [] }
        ensures { OnOk result (self.new ≡ record { tables = self.old.tables ++ table ∷ []; rows = [] }) }
    {
        for row in table.into_vec() {
            let texts = borrowed_texts(alloc, row.as_slice())?;
            self.put(alloc, texts.as_slice())?;
        }
        self.end_table()
    }

    /// The rows so far are a table, and the next one begins. Where memory is short, they are lost.
    pub fn end_table(&mut self) -> Result<(), AllocError>
        ensures { OnOk result (self.new ≡ record { tables = self.old.tables ++ self.old.rows ∷ []; rows = [] }) }
    {
        let next = Vec::new(*self.rows.allocator());
        let rows = mem::replace(&mut self.rows, next);
        self.tables.push(rows)?;
        Ok(())
    }

    /// The pool, and the tuples of each table that was ended.
    pub fn into_parts(self) -> (Pool, Vec<Vec<Tuple>>)
        ensures texts { map (λ table. map (λ tuple. texts_of result.0 (ids_of tuple)) table.items) result.1.items ≡ self.tables }
        ensures named { All (λ table. All (λ tuple. HaveTexts result.0 (ids_of tuple)) table.items) result.1.items }
    {
        (self.pool, self.tables)
    }
}

/// Each text goes to the pool, and the row becomes a tuple of ids.
impl RowTaker for PooledTables {
    ghost rows = { λ t. t.rows };

    ghost use Rattle.std.specs.Prelude.{List, ℕ};

    ghost Beside = { List (List (List (List ℕ))) };

    ghost beside = { λ t. t.tables };

    fn expect(&mut self, bytes: usize) {
        self.pool.reserve(bytes / NEW_TEXT_BYTES);
    }

    fn put(&mut self, alloc: Global, row: &[&str]) -> Result<(), AllocError> {
        intern_all(&mut self.pool, &mut self.ids, row)?;
        let tuple = RcSlice::from_slice(alloc, self.ids.as_slice())?;
        self.rows.push(tuple)?;
        Ok(())
    }
}

// The ids of the texts come in place of those that were there.
fn intern_all(pool: &mut Pool, ids: &mut Vec<ValueId>, row: &[&str]) -> Result<(), AllocError>
    ensures texts { OnOk result (texts_of pool.new ids.new.items ≡ texts_in row.now) }
    ensures named { OnOk result (HaveTexts pool.new ids.new.items) }
    ensures kept { KeepsIds pool.old pool.new }
{
    ids.clear();
    for text in row {
        let id = pool.intern(text)?;
        ids.push(id)?;
    }
    Ok(())
}

fn borrowed_texts(alloc: Global, row: &[Text]) -> Result<Vec<&str>, AllocError>
    ensures { IfOk result (λ texts. texts_in texts.items ≡ row.now) }
{
    let mut texts = Vec::with_capacity(alloc, row.len())?;
    for text in row {
        texts.push(text.as_str())?;
    }
    Ok(texts)
}
