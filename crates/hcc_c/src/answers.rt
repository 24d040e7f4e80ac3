//! How a call's result reaches C: by a status, and by outputs that stay if it is refused.
ghost use Rattle.std.specs.Prelude.{◌≡◌, None};
ghost use Rattle.hcc_c.specs.Answers.{beside_or, entry_or, found_or, given_or, handle_of_pinned, inserted_of, inserted_of_pinned, key_or, length_copied, length_got, length_of, more_of, placed, placed_beside, status_of, status_of_copied, status_of_given, status_of_got, status_of_insert, status_of_left, status_of_look, status_of_pinned, status_of_read, status_of_reref, value_or};

use crate::closed::Left;
use crate::image::Image;
use crate::inserting::Unfit;
use crate::objects::{CachePlace, ClosedPlace, ImagePlace, Loose};
use crate::pool::Pool;
use crate::refusal::{Refusal, inserted_code};
use crate::shapes::{CHandle, Entry, Key};
use hcc_cache::{CopyError, Got, InsertError, Inserted, LookupError};

/// The answers that are no refusals.
pub(crate) const DONE: u32 = 0;

pub(crate) const MISSED: u32 = 1;

/// Gives C a value, or why there is none.
pub(crate) fn told<T: Copy>(answer: Option<T>, why: Refusal, out: &mut T) -> u32
    ensures status { result ≡ status_of answer why }
    ensures value { out.new ≡ value_or answer out.old }
{
    match answer {
        Some(value) => {
            *out = value;
            DONE
        }
        None => why.code(),
    }
}

/// Gives C the key of an entry, or that there is no such handle.
pub(crate) fn told_key(answer: Option<hcc_cache::Key>, key: &mut Key) -> u32
    ensures status { result ≡ status_of answer Refusal.NoHandle }
    ensures key { key.new ≡ key_or answer key.old }
{
    match answer {
        Some(found) => {
            *key = Key::words(found);
            DONE
        }
        None => Refusal::NoHandle.code(),
    }
}

/// Gives C what a look-up found, or what it or a walk at a slot holds.
pub(crate) fn told_look<T: Copy>(answer: Result<Option<T>, LookupError>, out: &mut T) -> u32
    ensures status { result ≡ status_of_look answer }
    ensures found { out.new ≡ found_or answer out.old }
{
    match answer {
        Ok(Some(found)) => {
            *out = found;
            DONE
        }
        Ok(None) => MISSED,
        Err(why) => Refusal::looking(why).code(),
    }
}

/// Gives C one handle more, or why there is none.
pub(crate) fn told_reref(answer: Option<Result<CHandle, LookupError>>, more: &mut CHandle) -> u32
    ensures status { result ≡ status_of_reref answer }
    ensures more { more.new ≡ more_of answer more.old }
{
    match answer {
        Some(Ok(c_handle)) => {
            *more = c_handle;
            DONE
        }
        Some(Err(why)) => Refusal::looking(why).code(),
        None => Refusal::NoHandle.code(),
    }
}

/// Gives C what came of reading a key's value.
pub(crate) fn told_got(got: Got, length: &mut usize) -> u32
    ensures status { result ≡ status_of_got got }
    ensures length { length.new ≡ length_got got length.old }
{
    match got {
        Got::Hit(count) => {
            *length = count;
            DONE
        }
        Got::Short(count) => {
            *length = count;
            Refusal::TooShort.code()
        }
        Got::Miss => MISSED,
    }
}

/// Gives C what came of an insertion.
pub(crate) fn told_insert(
    answer: Result<Result<Inserted, InsertError>, Unfit>,
    inserted: &mut u32,
) -> u32
    ensures status { result ≡ status_of_insert answer }
    ensures inserted { inserted.new ≡ inserted_of answer inserted.old }
{
    match answer {
        Ok(Ok(what)) => {
            *inserted = inserted_code(what);
            DONE
        }
        Ok(Err(why)) => Refusal::inserting(why).code(),
        Err(why) => Refusal::unfit(why).code(),
    }
}

/// Gives C what came of an insertion with a handle.
pub(crate) fn told_pinned(
    answer: Result<Result<(CHandle, Inserted), CopyError>, Unfit>,
    inserted: &mut u32,
    handle: &mut CHandle,
) -> u32
    ensures status { result ≡ status_of_pinned answer }
    ensures inserted { inserted.new ≡ inserted_of_pinned answer inserted.old }
    ensures handle { handle.new ≡ handle_of_pinned answer handle.old }
{
    match answer {
        Ok(Ok((c_handle, what))) => {
            *handle = c_handle;
            *inserted = inserted_code(what);
            DONE
        }
        Ok(Err(why)) => Refusal::copying(why).code(),
        Err(why) => Refusal::unfit(why).code(),
    }
}

/// Gives C how many bytes were read, or how many the value has that the buffer is too short for.
pub(crate) fn told_read(answer: Option<Result<usize, usize>>, length: &mut usize) -> u32
    ensures status { result ≡ status_of_read answer }
    ensures length { length.new ≡ length_of answer length.old }
{
    match answer {
        Some(Ok(read)) => {
            *length = read;
            DONE
        }
        Some(Err(need)) => {
            *length = need;
            Refusal::TooShort.code()
        }
        None => Refusal::NoHandle.code(),
    }
}

/// Gives C a new cache by the place that it has, or why there is none.
pub(crate) fn told_cache(answer: Result<Box<Pool>, Refusal>, cache: &mut CachePlace) -> u32
    requires { cache.old.value ≡ None }
    ensures status { result ≡ status_of_given answer }
    ensures place { cache.new.value ≡ placed answer }
{
    match answer {
        Ok(pool) => {
            *cache = CachePlace::of(Loose::of(pool));
            DONE
        }
        Err(why) => why.code(),
    }
}

/// Gives C a cache that begins with entries, and how many are left out, or why there is none.
pub(crate) fn told_reopened(
    answer: Result<(Box<Pool>, usize), Refusal>,
    cache: &mut CachePlace,
    left_out: &mut usize,
) -> u32
    requires { cache.old.value ≡ None }
    ensures status { result ≡ status_of_given answer }
    ensures place { cache.new.value ≡ placed_beside answer }
    ensures left_out { left_out.new ≡ beside_or answer left_out.old }
{
    match answer {
        Ok((pool, count)) => {
            *left_out = count;
            told_cache(Ok(pool), cache)
        }
        Err(why) => why.code(),
    }
}

/// Gives C a place for what is left of a cache, or why there is none.
pub(crate) fn told_room(answer: Result<Box<Left>, Refusal>, closed: &mut ClosedPlace) -> u32
    requires { closed.old.value ≡ None }
    ensures status { result ≡ status_of_given answer }
    ensures place { closed.new.value ≡ placed answer }
{
    match answer {
        Ok(left) => {
            *closed = ClosedPlace::of(Loose::of(left));
            DONE
        }
        Err(why) => why.code(),
    }
}

/// Gives C a place for entries, or why there is none.
pub(crate) fn told_image(answer: Result<Box<Image>, Refusal>, image: &mut ImagePlace) -> u32
    requires { image.old.value ≡ None }
    ensures status { result ≡ status_of_given answer }
    ensures place { image.new.value ≡ placed answer }
{
    match answer {
        Ok(made) => {
            *image = ImagePlace::of(Loose::of(made));
            DONE
        }
        Err(why) => why.code(),
    }
}

/// Reports to C that it is done, or why it isn't.
pub(crate) fn told_done(answer: Result<(), Refusal>) -> u32
    ensures { result ≡ status_of_given answer }
{
    match answer {
        Ok(_) => DONE,
        Err(why) => why.code(),
    }
}

/// Gives C what is told of a closed cache, or why it isn't.
pub(crate) fn told_given<T: Copy>(answer: Result<T, Refusal>, out: &mut T) -> u32
    ensures status { result ≡ status_of_given answer }
    ensures value { out.new ≡ given_or answer out.old }
{
    match answer {
        Ok(given) => {
            *out = given;
            DONE
        }
        Err(why) => why.code(),
    }
}

/// Gives C the entry of a slot of a closed cache, or why there is none.
pub(crate) fn told_left(answer: Result<Option<Entry>, Refusal>, entry: &mut Entry) -> u32
    ensures status { result ≡ status_of_left answer }
    ensures entry { entry.new ≡ entry_or answer entry.old }
{
    match answer {
        Ok(Some(left)) => {
            *entry = left;
            DONE
        }
        Ok(_) => MISSED,
        Err(why) => why.code(),
    }
}

/// Gives C what came of reading the value of a slot's entry.
pub(crate) fn told_copied(answer: Result<Got, Refusal>, length: &mut usize) -> u32
    ensures status { result ≡ status_of_copied answer }
    ensures length { length.new ≡ length_copied answer length.old }
{
    match answer {
        Ok(got) => told_got(got, length),
        Err(why) => why.code(),
    }
}
