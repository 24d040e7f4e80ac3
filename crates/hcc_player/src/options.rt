//! The options of a play on a cache.
ghost use Rattle.std.specs.Prelude.{◌≡◌};
ghost use Rattle.hcc_player.specs.Options.{config_check, options_check};

use crate::fault::PlayError;
use hcc_cache::Config;

/// The sizes of the cache, and of a block.
#[derive(Clone, Copy, Debug, PartialEq, Eq)]
pub struct Options {
    pub config: Config,
    /// How many bytes a block has, only the last of a file fewer: 1 to eight times the payload
    /// words of a slot. A trace of calls has no blocks.
    pub block: u32,
}

impl Options {
    /// Refuses what the config's check refuses, and else a block size that is 0 or above the most
    /// bytes of a value. It allocates nothing, and costs a few comparisons.
    pub fn check(&self) -> Result<(), PlayError>
        ensures { result ≡ options_check self.now }
    {
        check_config(&self.config)?;
        if self.block == 0 || u64::from(self.block) > 8 * u64::from(self.config.room) {
            return Err(PlayError::BadBlock);
        }
        Ok(())
    }
}

/// Refuses what the config's check refuses.
pub(crate) fn check_config(config: &Config) -> Result<(), PlayError>
    ensures { result ≡ config_check config.now }
{
    match config.check() {
        Ok(()) => Ok(()),
        Err(error) => Err(PlayError::Refused(error)),
    }
}
