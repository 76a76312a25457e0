ghost use Rattle.std.specs.Prelude.{IfOk, IfSome};
ghost use Rattle.entry.specs.Entry.{IsValid};

use crate::keys::{key_in, key_of, key_past, text_of};
use crate::trouble::Trouble;
use entry::Entry;
use sqlite::{Connection, MemStore, Row, Statement, params};
use std::alloc::Global;
use weed_base::{Name, Path};

const TABLE: &str =
    "CREATE TABLE entry (key BLOB NOT NULL UNIQUE, parent BLOB NOT NULL, text BLOB NOT NULL) STRICT; CREATE INDEX child ON entry (parent, key)";

/// One table of the keys of paths, those of their parents, and the texts of their entries.
#[derive(Drop)]
pub struct Database {
    connection: Connection<MemStore>,
    find: Statement,
    children: Statement,
    below: Statement,
    put: Statement,
    remove: Statement,
    clear: Statement,
}

/// The entry of a text.
fn entry_of(alloc: Global, text: &[u8]) -> Result<Entry, Trouble>
    ensures { IfOk result IsValid }
{
    let (_, entry) = Entry::read(alloc, text)?;
    Ok(entry)
}

fn bytes_at(row: &Row, column: usize) -> Result<Vec<u8>, Trouble> {
    Ok(row.get::<Vec<u8>>(column)?)
}

/// The path and the entry of a row.
pub fn item_of(alloc: Global, row: &Row) -> Result<(Path, Entry), Trouble>
    ensures { IfOk result (λ item. IsValid item.1) }
{
    let key = bytes_at(row, 0)?;
    let text = bytes_at(row, 1)?;
    let path = Path::read(alloc, &text_of(alloc, &key)?)?;
    Ok((path, entry_of(alloc, &text)?))
}

impl Database {
    /// An empty table in memory, with its statements.
    pub fn open(alloc: Global) -> Result<Database, Trouble> {
        let mut connection = Connection::open_in_memory(alloc)?;
        connection.execute_batch(TABLE)?;
        let find = connection.prepare("SELECT text FROM entry WHERE key = ?1")?;
        let children = connection.prepare(
            "SELECT key, text FROM entry WHERE parent = ?1 AND key > ?2 ORDER BY key LIMIT ?3",
        )?;
        let below = connection.prepare(
            "SELECT key, text FROM entry WHERE key > ?1 AND key < ?2 ORDER BY key LIMIT ?3",
        )?;
        let put = connection.prepare(
            "INSERT INTO entry (key, parent, text) VALUES (?1, ?2, ?3) ON CONFLICT (key) DO UPDATE SET text = excluded.text",
        )?;
        let remove = connection.prepare("DELETE FROM entry WHERE key >= ?1 AND key < ?2")?;
        let clear = connection.prepare("DELETE FROM entry")?;
        Ok(Database {
            connection,
            find,
            children,
            below,
            put,
            remove,
            clear,
        })
    }

    /// The entry at a path.
    pub fn find(&mut self, alloc: Global, path: &Path) -> Result<Option<Entry>, Trouble>
        ensures { IfOk result (λ found. IfSome found IsValid) }
    {
        let key = key_of(alloc, path)?;
        let rows = self
            .find
            .query_all(&mut self.connection, params![key.as_slice()])?;
        match rows.first() {
            Some(row) => Ok(Some(entry_of(alloc, &bytes_at(row, 0)?)?)),
            None => Ok(None),
        }
    }

    /// Rows of what stands in a directory, past a name.
    pub fn children(
        &mut self,
        alloc: Global,
        dir: &Path,
        after: Option<&Name>,
        room: u32,
    ) -> Result<Vec<Row>, Trouble> {
        let parent = key_of(alloc, dir)?;
        let past = match after {
            Some(name) => key_in(alloc, &parent, name)?,
            None => parent.as_slice().to_vec(alloc)?,
        };
        Ok(
            self.children.query_all(
                &mut self.connection,
                params![parent.as_slice(), past.as_slice(), i64::from(room)],
            )?,
        )
    }

    /// Rows of what stands below a path, past another.
    pub fn below(
        &mut self,
        alloc: Global,
        top: &Path,
        after: Option<&Path>,
        room: u32,
    ) -> Result<Vec<Row>, Trouble> {
        let first = key_of(alloc, top)?;
        let last = key_past(alloc, top)?;
        let past = match after {
            Some(path) => key_of(alloc, path)?,
            None => Vec::new(alloc),
        };
        let past = if past.as_slice() < first.as_slice() {
            first
        } else {
            past
        };
        Ok(
            self.below.query_all(
                &mut self.connection,
                params![past.as_slice(), last.as_slice(), i64::from(room)],
            )?,
        )
    }

    /// Puts an entry at a path other than the root.
    pub fn put(&mut self, alloc: Global, path: &Path, entry: &Entry) -> Result<(), Trouble>
        requires { IsValid entry.now }
    {
        let key = key_of(alloc, path)?;
        let parent = match path.parent(alloc)? {
            Some(parent) => key_of(alloc, &parent)?,
            None => Vec::new(alloc),
        };
        let text = entry.write(alloc, &Name::of(Vec::new(alloc)))?;
        let _ = self.put.execute(
            &mut self.connection,
            params![key.as_slice(), parent.as_slice(), text.as_slice()],
        )?;
        Ok(())
    }

    /// Removes what stands at a path and below it.
    pub fn remove_within(&mut self, alloc: Global, top: &Path) -> Result<(), Trouble> {
        let first = key_of(alloc, top)?;
        let last = key_past(alloc, top)?;
        let _ = self.remove.execute(
            &mut self.connection,
            params![first.as_slice(), last.as_slice()],
        )?;
        Ok(())
    }

    /// Removes all.
    pub fn clear(&mut self) -> Result<(), Trouble> {
        let _ = self.clear.execute(&mut self.connection, &[])?;
        Ok(())
    }
}
