//! A cache in the hands of C that begins with entries.
ghost use Rattle.std.specs.Prelude.{◌≡◌, length};
ghost use Rattle.hcc_c.specs.Images.{ReopensAs, entries_of};

use crate::image::Image;
use crate::objects::ClientPlace;
use crate::pool::Pool;
use crate::refusal::Refusal;
use hcc_cache::{AnyBytes, Cache, Config};
use std::alloc::Global;

impl Pool {
    /// A cache of this number that begins with these entries, whose clients go to the places, in
    /// order of their numbers, and how many entries are left out. It refuses what the cache's
    /// `reopen` does, and where memory is refused; the places are as before then. The entries are
    /// gone, whatever is returned.
    pub fn reopen(
        alloc: Global,
        config: Config,
        number: u32,
        image: Box<Image>,
        clients: &mut [ClientPlace],
    ) -> Result<(Box<Pool>, usize), Refusal>
        requires { length clients.old ≡ config.clients }
        ensures { ReopensAs config number (entries_of image.value) result clients.old clients.new }
    {
        let Image { entries } = Box::into_inner(image);
        let (cache, made, left) = match Cache::reopen(alloc, config, AnyBytes, entries) {
            Ok(made) => made,
            Err(why) => return Err(Refusal::opening(why)),
        };
        let left_out = left.len();
        match Pool::of(alloc, cache, made, config, number, clients) {
            Ok(pool) => Ok((pool, left_out)),
            Err(why) => Err(why),
        }
    }
}
