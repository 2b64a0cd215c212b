// Prune settings: the threshold that a setting stands for.
#![tactic(auto)]

ghost use Rattle.std.specs.Prelude.{◌≡◌};
ghost use Rattle.definitions.specs.Settings as Settings;
ghost use Rattle.settings.specs.Answers.{meaning};

use refusal::Refusal;
use thresholds::{FIRST_PRUNING_SETTING, LAST_SETTING};

/// The binary64 bits of the threshold that a setting prunes at. Settings 0 to 19 prune nothing, and those above 200 are
/// refused as `BadSetting`.
pub fn threshold(setting: u32) -> Result<Option<u64>, Refusal>
    ensures { meaning result ≡ Settings.setting setting }
{
    if setting < FIRST_PRUNING_SETTING {
        return Ok(None);
    }
    if LAST_SETTING < setting {
        return Err(Refusal::BadSetting);
    }
    Ok(Some(thresholds::threshold(setting)))
}
