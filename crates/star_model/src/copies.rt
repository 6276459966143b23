// Copies of catalogues.

ghost use Rattle.std.specs.Prelude.{◌≡◌, ◌≤◌, length, IfOk};

use crate::catalogue::{Catalogue, ColumnDef, IndexColumns, IndexDef, SiteDef, TableDef};
use crate::lists::List;
use std::alloc::{AllocError, Global};

impl SiteDef {
    /// An equal site.
    pub fn copy(&self, alloc: Global) -> Result<SiteDef, AllocError>
        ensures { IfOk result (λ c. c ≡ self.now) }
    {
        Ok(SiteDef {
            name: self.name.copy(alloc)?,
            cpu: self.cpu,
            net: self.net,
        })
    }
}

impl ColumnDef {
    /// An equal column.
    pub fn copy(&self, alloc: Global) -> Result<ColumnDef, AllocError>
        ensures { IfOk result (λ c. c ≡ self.now) }
    {
        Ok(ColumnDef {
            name: self.name.copy(alloc)?,
            kind: self.kind,
            width: self.width,
            distinct: self.distinct,
        })
    }
}

impl TableDef {
    /// An equal table.
    pub fn copy(&self, alloc: Global) -> Result<TableDef, AllocError>
        ensures { IfOk result (λ c. c ≡ self.now) }
    {
        let name = self.name.copy(alloc)?;
        let file = self.file.copy(alloc)?;
        Ok(TableDef {
            name,
            site: self.site,
            rows: self.rows,
            pages: self.pages,
            file,
            columns: copy_columns(alloc, self.columns.as_slice())?,
        })
    }
}

impl IndexColumns {
    /// An equal list. It takes no memory.
    pub fn copied(&self) -> IndexColumns
        ensures { result ≡ self.now }
    {
        copy_positions(self.as_slice())
    }
}

impl IndexDef {
    /// An equal index.
    pub fn copy(&self, alloc: Global) -> Result<IndexDef, AllocError>
        ensures { IfOk result (λ c. c ≡ self.now) }
    {
        Ok(IndexDef {
            name: self.name.copy(alloc)?,
            table: self.table,
            columns: self.columns.copied(),
            pages: self.pages,
        })
    }
}

impl Catalogue {
    /// An equal catalogue.
    pub fn copy(&self, alloc: Global) -> Result<Catalogue, AllocError>
        ensures { IfOk result (λ c. c ≡ self.now) }
    {
        let sites = copy_sites(alloc, self.sites.as_slice())?;
        let tables = copy_tables(alloc, self.tables.as_slice())?;
        Ok(Catalogue {
            sites,
            tables,
            indexes: copy_indexes(alloc, self.indexes.as_slice())?,
        })
    }
}

fn copy_positions(columns: &[u8]) -> IndexColumns
    requires { length columns.now ≤ 8 }
    ensures { result ≡ columns.now }
{
    let mut copy = IndexColumns::new();
    for (i, column) in columns.iter().enumerate() {
        let pushed = copy.try_push(*column);
        prove!(pushed.is_ok());
    }
    copy
}

fn copy_sites(alloc: Global, sites: &[SiteDef]) -> Result<List<SiteDef>, AllocError>
    ensures { IfOk result (λ c. c ≡ sites.now) }
{
    let mut copy = List::new(alloc);
    for site in sites {
        copy.push(site.copy(alloc)?)?;
    }
    Ok(copy)
}

fn copy_columns(alloc: Global, columns: &[ColumnDef]) -> Result<List<ColumnDef>, AllocError>
    ensures { IfOk result (λ c. c ≡ columns.now) }
{
    let mut copy = List::new(alloc);
    for column in columns {
        copy.push(column.copy(alloc)?)?;
    }
    Ok(copy)
}

fn copy_tables(alloc: Global, tables: &[TableDef]) -> Result<List<TableDef>, AllocError>
    ensures { IfOk result (λ c. c ≡ tables.now) }
{
    let mut copy = List::new(alloc);
    for table in tables {
        copy.push(table.copy(alloc)?)?;
    }
    Ok(copy)
}

fn copy_indexes(alloc: Global, indexes: &[IndexDef]) -> Result<List<IndexDef>, AllocError>
    ensures { IfOk result (λ c. c ≡ indexes.now) }
{
    let mut copy = List::new(alloc);
    for index in indexes {
        copy.push(index.copy(alloc)?)?;
    }
    Ok(copy)
}
