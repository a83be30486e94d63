//! The keeper sets cookies aside for a run.
ghost use Rattle.std.specs.Prelude.{◌≡◌, IfOk, IfSome};
ghost use Rattle.sqlite_keeper.specs.Blocks.{CanBeDrawn, counter_answer};

use crate::cookie_block::CookieBlock;
use crate::sqlite_keeper::SqliteKeeper;
use block_keeper::BlockKeeper;
use cookie_source::PlainCookies;
use keeper::KeepError;
use sqlite::Alter;

/// The cookies of the block, none of them drawn.
fn cookies_of(
    block: Result<Option<CookieBlock>, KeepError>,
) -> Result<Option<PlainCookies>, KeepError>
    requires { IfOk block (λ b. IfSome b CanBeDrawn) }
    ensures { result ≡ counter_answer block }
{
    match block {
        Ok(Some(block)) => Ok(Some(PlainCookies::new(block.first, block.last))),
        Ok(None) => Ok(None),
        Err(error) => Err(error),
    }
}

impl<S: Alter> BlockKeeper for SqliteKeeper<S> {
    fn set_aside(&mut self, at_least: u64) -> Result<Option<PlainCookies>, KeepError> {
        let block = self.block(at_least);
        cookies_of(block)
    }
}
