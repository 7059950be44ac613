// The device table: its rows in the order added, searched by address.
ghost use Rattle.std.specs.Prelude.{◌≡◌};
ghost use Rattle.devices.specs.Table.{rows_of, fresh_table, used_rows, addresses, find, find_address, row_at, row_number, room_answer, adding, add, store_legal};

use crate::field::Field;
use crate::row::Row;

// A table has room for this many rows.
const TABLE_PLACES: usize = 32;

// The rows, the first `count` of them in use; it has a layout in C. The count stands first, so that a copy of a gateway is split there.
#[repr(C)]
#[derive(Clone, Copy)]
pub struct Table {
    pub count: usize,
    pub rows: [Row; TABLE_PLACES],
}

// Why a row is refused.
#[derive(Drop)]
pub enum RowRefusal {
    BadRow,
    AddressInTable,
    TableFull,
}

// The place of the first of the addresses that is the one looked for.
#[tactic(auto, unfolding(crate::specs::Table::find_address))]
pub fn find_address(addresses: &[u16], address: u16) -> Option<usize>
    ensures { result ≡ find_address addresses.now address }
{
    addresses.iter().position(|a| *a == address)
}

impl RowRefusal {
    // Document 01's number. A method and no From, since its name says which number.
    pub fn number(self) -> u8
        ensures { result ≡ row_number self }
    {
        match self {
            RowRefusal::BadRow => 19,
            RowRefusal::AddressInTable => 20,
            RowRefusal::TableFull => 21,
        }
    }
}

impl Table {
    // A table with no rows.
    #[tactic(auto, unfolding(crate::specs::Table::fresh_table))]
    pub fn fresh() -> Table
        ensures { result ≡ fresh_table }
    {
        Table {
            count: 0,
            rows: [Row::blank(); TABLE_PLACES],
        }
    }

    // The rows in use, in the order added.
    #[tactic(auto, using(crate::proofs::Rows::rows_cut))]
    fn in_use(&self) -> &[Row]
        ensures { result.now ≡ rows_of self.now }
    {
        &self.rows[..self.count.min(TABLE_PLACES)]
    }

    // The number of rows.
    pub fn used(self) -> usize
        ensures { result ≡ used_rows self }
    {
        self.in_use().len()
    }

    // The addresses of the rows in use, in the order of the rows; zeros past them.
    pub fn addresses(self) -> [u16; TABLE_PLACES]
        ensures { result ≡ addresses self }
    {
        let mut list = [0; TABLE_PLACES];
        for (place, row) in self.in_use().iter().enumerate() {
            list[place] = row.address;
        }
        list
    }

    // The place of the first row with the address. A loop that yields it by `break`, the form that document 01 names for this search.
    #[tactic(auto, unfolding(crate::specs::Table::find))]
    pub fn find(self, address: u16) -> Option<usize>
        ensures { result ≡ find (rows_of self) address }
    {
        let rows = self.in_use();
        let mut place = 0;
        loop {
            if rows.len() <= place {
                break None;
            }
            if rows[place].address == address {
                break Some(place);
            }
            place += 1;
        }
    }

    // The row at a place, from 0 on; a row of zeros past the last.
    #[tactic(auto, unfolding(crate::specs::Table::row_at))]
    pub fn at(self, at: usize) -> Row
        ensures { result ≡ row_at (rows_of self) at }
    {
        self.in_use().get(at).copied().unwrap_or(Row::blank())
    }

    // The table with the row after the last, where there is room.
    #[tactic(auto, using(crate::proofs::Rows::appended))]
    fn append(self, row: Row) -> Result<Table, RowRefusal>
        ensures { result ≡ adding self row (room_answer (rows_of self)) }
    {
        if TABLE_PLACES <= self.count {
            return Err(RowRefusal::TableFull);
        }
        let mut table = self;
        table.rows[self.count] = row;
        table.count += 1;
        Ok(table)
    }

    // The table with the row after the last, or why the row is refused.
    #[tactic(auto, using(crate::proofs::Places::known_is), unfolding(crate::specs::Table::row_answer))]
    pub fn add(self, row: Row) -> Result<Table, RowRefusal>
        ensures { result ≡ add self row }
    {
        if !row.keeps_rules() {
            return Err(RowRefusal::BadRow);
        }
        if self.find(row.address).is_some() {
            return Err(RowRefusal::AddressInTable);
        }
        self.append(row)
    }

    // The table with the value in the field, where its device may answer with it. The row is read and written here: a table that is
    // handed on is copied.
    pub fn store_legal(self, field: Field, value: u8) -> Option<Table>
        ensures { result ≡ store_legal self field value }
    {
        let at = self.find(field.address)?;
        let setting = field.setting();
        let row = self.rows[at];
        if !row.legal(setting, value) {
            return None;
        }
        let mut table = self;
        table.count = self.used();
        table.rows[at] = row.with_value(setting, value);
        Some(table)
    }
}
