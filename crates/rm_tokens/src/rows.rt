ghost use Rattle.std.specs.Prelude.{◌≡◌, ◌-◌, ◌<◌, ◌≤◌, true, length, vec_capacity, IfSome, IsNone, is_some, None, Some, option_map, slice_set, get_or};
ghost use Rattle.rm_tokens.specs.declared.token.Token.{Token as AnyToken};
ghost use Rattle.rm_tokens.specs.Rows.{row_at, fits_rows, rows_after};

use crate::token::{Token, TokenRecord};

/// The token of a number, or none where it wasn't issued or is cancelled.
pub fn token_at(rows: &[Option<Token>], number: u64) -> Option<&Token>
    ensures none { IsNone result → row_at rows.now number ≡ None }
    ensures some { IfSome result (λ token. row_at rows.now number ≡ Some token.now) }
{
    if number == 0 || number > rows.len() as u64 {
        return None;
    }
    rows[(number - 1) as usize].as_ref()
}

/// Whether a record may stand behind those of which these are the rows.
pub fn fits_rows(rows: &[Option<Token>], entry: &TokenRecord) -> bool
    ensures { result ≡ fits_rows rows.now entry.now }
{
    match entry {
        TokenRecord::Issued { number, token } => {
            *number == rows.len() as u64 + 1 && token.until <= token.last
        }
        TokenRecord::Renewed { number, until } => match token_at(rows, *number) {
            Some(token) => token.until <= *until && *until <= token.last,
            None => false,
        },
        TokenRecord::Cancelled { number } => token_at(rows, *number).is_some(),
    }
}

/// Takes in a record that fits. There must be room for one row more.
pub fn apply_record(rows: &mut Vec<Option<Token>>, entry: TokenRecord)
    requires room { length rows.old.items < vec_capacity rows.old }
    requires fits { fits_rows rows.old.items entry ≡ true }
    ensures { rows.new.items ≡ rows_after rows.old.items entry }
{
    match entry {
        TokenRecord::Issued { number: _, token } => rows.push(Some(token)).unwrap(),
        TokenRecord::Renewed { number, until } => renew_row(rows, (number - 1) as usize, until),
        TokenRecord::Cancelled { number } => {
            rows[(number - 1) as usize] = None;
        }
    }
}

fn renew_row(rows: &mut Vec<Option<Token>>, place: usize, until: u64)
    requires { place < length rows.old.items }
    ensures { rows.new.items ≡ slice_set rows.old.items place (option_map (λ (token : AnyToken). record token { until = until }) (get_or rows.old.items place None)) }
{
    if let Some(token) = &mut rows[place] {
        token.until = until;
    }
}
