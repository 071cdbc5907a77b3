// Tables of a file that a call names, each by its number and the kind that it has to be. Every call of `checker` and of the picker opens the file here.
ghost use Rattle.std.specs.Prelude.{◌≡◌};
ghost use Rattle.questions.specs.Named.{kind_fault, table_checks, named_checks};

use tables::{Kind, Reason, Refusal, check_body, check_number, entry_at, table_count};

// A table that a call names: its number, and the kind that it has to be.
#[derive(Clone, Copy)]
pub struct Named {
    pub table: usize,
    pub kind: Kind,
}

// Whether a table is of the kind.
fn check_kind(file: &[u8], named: Named) -> Result<(), Refusal>
    ensures { result ≡ kind_fault file.now named }
{
    if !entry_at(file, named.table).has_kind(named.kind) {
        return Err(Refusal::new(Reason::WrongKind, 0));
    }
    Ok(())
}

// What turns back a call that names one table of a file.
pub fn check_table(file: &[u8], named: Named) -> Result<(), Refusal>
    ensures { result ≡ table_checks file.now named }
{
    check_body(file, named.table)?;
    check_kind(file, named)
}

// What turns back a call that names two tables of a file: both numbers are looked at before a kind is.
pub fn check_named(file: &[u8], first: Named, second: Named) -> Result<(), Refusal>
    ensures { result ≡ named_checks file.now first second }
{
    check_body(file, first.table)?;
    check_number(table_count(file), second.table)?;
    check_kind(file, first)?;
    check_kind(file, second)
}
