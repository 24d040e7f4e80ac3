//! How a result of a cache of objects reaches C: by a status, and by outputs that stay if it is
//! refused.
ghost use Rattle.std.specs.Prelude.{◌≡◌, None};
ghost use Rattle.hcc_c.specs.Answers.{placed, status_of_given};
ghost use Rattle.hcc_c.specs.ObjectAnswers.{full_of, full_of_pinned, full_placed, full_refused, gone_key_or, gone_object_or, handle_of_pinned, placing_of, placing_of_pinned, status_of_gone, status_of_pinned, status_of_put};

use crate::answers::{DONE, MISSED};
use crate::inserting::Unfit;
use crate::kept_objects::KeptObjects;
use crate::object_holders::{KeptObjectsPlace, ObjectCachePlace};
use crate::object_pool::ObjectPool;
use crate::object_shapes::CObject;
use crate::objects::Loose;
use crate::refusal::{Refusal, placing_code};
use crate::shapes::{CHandle, Key};
use hcc_cache::{Object, ObjectError, Placing};

/// Gives C what came of an insertion.
pub(crate) fn told_put(
    answer: Result<Result<Placing, ObjectError>, Unfit>,
    placing: &mut u32,
    list_full: &mut bool,
) -> u32
    ensures status { result ≡ status_of_put answer }
    ensures placing { placing.new ≡ placing_of answer placing.old }
    ensures full { list_full.new ≡ full_of answer list_full.old }
{
    match answer {
        Ok(Ok(what)) => {
            *placing = placing_code(what);
            *list_full = full_placed(what);
            DONE
        }
        Ok(Err(why)) => {
            tell_full(why, list_full);
            Refusal::inserting_object(why).code()
        }
        Err(why) => Refusal::unfit(why).code(),
    }
}

/// Gives C what came of an insertion with a handle.
pub(crate) fn told_put_pinned(
    answer: Result<Result<(CHandle, Placing), ObjectError>, Unfit>,
    placing: &mut u32,
    list_full: &mut bool,
    handle: &mut CHandle,
) -> u32
    ensures status { result ≡ status_of_pinned answer }
    ensures placing { placing.new ≡ placing_of_pinned answer placing.old }
    ensures full { list_full.new ≡ full_of_pinned answer list_full.old }
    ensures handle { handle.new ≡ handle_of_pinned answer handle.old }
{
    match answer {
        Ok(Ok((c_handle, what))) => {
            *handle = c_handle;
            *placing = placing_code(what);
            *list_full = full_placed(what);
            DONE
        }
        Ok(Err(why)) => {
            tell_full(why, list_full);
            Refusal::inserting_object(why).code()
        }
        Err(why) => Refusal::unfit(why).code(),
    }
}

/// Whether an insertion that wasn't refused says that the list is full.
fn full_placed(what: Placing) -> bool
    ensures { result ≡ full_placed what }
{
    match what {
        Placing::Placed => false,
        Placing::Dropped { list_full } | Placing::Standalone { list_full } => list_full,
    }
}

/// Gives C what a refusal says of the list, if it says something.
fn tell_full(why: ObjectError, list_full: &mut bool)
    ensures { list_full.new ≡ full_refused why list_full.old }
{
    match why {
        ObjectError::CapacityFull { list_full: full } => *list_full = full,
        ObjectError::OccupancyFull { list_full: full } => *list_full = full,
        ObjectError::HandlesFull
        | ObjectError::Spent
        | ObjectError::GoneFull
        | ObjectError::TooHigh
        | ObjectError::TooLarge => {}
    }
}

/// Gives C an object that is handed back, with its key, or says that there is none.
pub(crate) fn told_gone(
    answer: Option<(hcc_cache::Key, Object)>,
    key: &mut Key,
    object: &mut CObject,
) -> u32
    ensures status { result ≡ status_of_gone answer }
    ensures key { key.new ≡ gone_key_or answer key.old }
    ensures object { object.new ≡ gone_object_or answer object.old }
{
    match answer {
        Some((its_key, gone)) => {
            *key = Key::words(its_key);
            *object = CObject::of(gone);
            DONE
        }
        None => MISSED,
    }
}

/// Gives C a new cache by the place that it has, or why there is none.
pub(crate) fn told_pool(
    answer: Result<Box<ObjectPool>, Refusal>,
    cache: &mut ObjectCachePlace,
) -> u32
    requires { cache.old.value ≡ None }
    ensures status { result ≡ status_of_given answer }
    ensures place { cache.new.value ≡ placed answer }
{
    match answer {
        Ok(pool) => {
            *cache = ObjectCachePlace::of(Loose::of(pool));
            DONE
        }
        Err(why) => why.code(),
    }
}

/// Gives C a place for what is left of a cache, or why there is none.
pub(crate) fn told_kept(
    answer: Result<Box<KeptObjects>, Refusal>,
    kept: &mut KeptObjectsPlace,
) -> u32
    requires { kept.old.value ≡ None }
    ensures status { result ≡ status_of_given answer }
    ensures place { kept.new.value ≡ placed answer }
{
    match answer {
        Ok(made) => {
            *kept = KeptObjectsPlace::of(Loose::of(made));
            DONE
        }
        Err(why) => why.code(),
    }
}
