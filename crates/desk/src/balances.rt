// The balances of a book of three parties.
ghost use Rattle.book.specs.Books.{model};
ghost use Rattle.desk.specs.Asked.{Asked};

use assess::refusals::Refusal;
use book::ledger::Book;

// Each party's, as the book answers it.
pub(crate) fn balances(book: &Book) -> Result<(i128, i128, i128), Refusal>
    ensures { Asked (model book.now) result }
{
    let one = book.balance(1)?;
    let two = book.balance(2)?;
    let three = book.balance(3)?;
    Ok((one, two, three))
}
