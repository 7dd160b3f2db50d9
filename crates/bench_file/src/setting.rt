//! The numbers that lines of a bench file set.

ghost use Rattle.std.specs.Prelude.{◌≡◌, ◌≤◌};
ghost use Rattle.bench_file.specs.Settings.{setting_of, least, greatest, default_of};

/// A number that a line of a bench file sets.
#[derive(Clone, Copy, Debug, PartialEq, Eq)]
pub enum Setting {
    Regions,
    Words,
    Ring,
    Sessions,
    Desk,
    Versions,
}

/// The number that a word names.
pub(crate) fn setting_of(word: &[u8]) -> Option<Setting>
    ensures { result ≡ setting_of word.now }
{
    match word {
        b"regions" => Some(Setting::Regions),
        b"words" => Some(Setting::Words),
        b"ring" => Some(Setting::Ring),
        b"sessions" => Some(Setting::Sessions),
        b"desk" => Some(Setting::Desk),
        b"versions" => Some(Setting::Versions),
        _ => None,
    }
}

/// The least number that a line may set.
pub(crate) fn least(setting: Setting) -> u32
    ensures { result ≡ least setting }
{
    match setting {
        Setting::Desk | Setting::Versions => 0,
        Setting::Words | Setting::Sessions => 1,
        Setting::Regions | Setting::Ring => 2,
    }
}

/// The greatest number that a line may set.
pub(crate) fn greatest(setting: Setting) -> u32
    ensures { result ≡ greatest setting }
{
    match setting {
        Setting::Regions => 8,
        Setting::Words => 1_048_576,
        Setting::Ring => 16_384,
        Setting::Sessions | Setting::Desk => 1_024,
        Setting::Versions => u32::MAX,
    }
}

/// The number where no line sets it.
pub(crate) fn default_of(setting: Setting) -> u32
    ensures { result ≡ default_of setting }
{
    match setting {
        Setting::Regions => 4,
        Setting::Words => 262_144,
        Setting::Ring => 1_024,
        Setting::Sessions | Setting::Desk => 1,
        Setting::Versions => u32::MAX,
    }
}
