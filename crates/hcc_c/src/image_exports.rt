//! Entries come one by one, and a cache begins with them.
ghost use Rattle.std.specs.Prelude.{◌≡◌, [], None, IfOk, IsOkUnless, length};
ghost use Rattle.hcc_rule.specs.Views.{Each};
ghost use Rattle.hcc_c.specs.Answers.{beside_or, placed, placed_beside, status_of_given};
ghost use Rattle.hcc_c.specs.Images.{Adds, ReopensAs, entries_of, entry_for};
ghost use Rattle.hcc_c.specs.Lending.{IsImageThere};
ghost use Rattle.hcc_c.specs.Pools.{IsEmpty, held_in};
ghost use Rattle.hcc_c.specs.Shapes.{config_of, key_of};

use crate::answers::{told_done, told_image, told_reopened};
use crate::image::Image;
use crate::objects::{CachePlace, ClientPlace, ImageObject, ImagePlace};
use crate::pool::Pool;
use crate::refusal::Refusal;
use crate::shapes::{CConfig, Key};
use std::alloc::Global;

/// Gives an image with no entries.
#[unsafe(no_mangle)]
pub extern "C" fn ferretgold_raw_image_open(alloc: Global, image: &mut ImagePlace) -> u32
    requires { image.old.value ≡ None }
    ensures opens { (answer : _) × IsOkUnless answer Refusal.OutOfMemory
        × IfOk answer (λ made. entries_of made.value ≡ [])
        × (result ≡ status_of_given answer) × (image.new.value ≡ placed answer) }
{
    let answer = Image::open(alloc);
    told_image(answer, image)
}

/// Adds an entry behind the others, which stay as they are where memory is refused.
#[unsafe(no_mangle)]
pub extern "C" fn ferretgold_raw_image_add(
    alloc: Global,
    image: &mut ImageObject,
    key: &Key,
    value: &[u8],
    charge: u32,
    uses: u32,
) -> u32
    ensures there { IsImageThere image.old image.new }
    ensures adds { (answer : _)
        × Adds (entry_for (key_of key.now) value.now charge uses) answer
        image.old.value image.new.value
        × (result ≡ status_of_given answer) }
{
    let answer = image.image().add(alloc, key.key(), value, charge, uses);
    told_done(answer)
}

/// Frees the entries, which C has no more.
#[unsafe(no_mangle)]
pub extern "C" fn ferretgold_raw_image_free(alloc: Global, image: ImageObject) {
    drop(image.whole(alloc));
}

/// Opens a cache that begins with the entries, which C has no more, whatever it answers, and gives
/// all its clients: each goes to the place of its number.
#[unsafe(no_mangle)]
pub extern "C" fn ferretgold_raw_reopen(
    alloc: Global,
    setup: &CConfig,
    number: u32,
    image: ImageObject,
    clients: &mut [ClientPlace],
    cache: &mut CachePlace,
    left_out: &mut usize,
) -> u32
    requires cache { cache.old.value ≡ None }
    requires clients { Each IsEmpty (held_in clients.old) }
    requires count { length clients.old ≡ setup.now.clients }
    ensures reopens { (answer : _)
        × ReopensAs (config_of setup.now) number (entries_of image.value) answer
        clients.old clients.new
        × (result ≡ status_of_given answer) × (cache.new.value ≡ placed_beside answer)
        × (left_out.new ≡ beside_or answer left_out.old) }
{
    let image = image.whole(alloc);
    let answer = Pool::reopen(alloc, setup.config(), number, image, clients);
    told_reopened(answer, cache, left_out)
}
