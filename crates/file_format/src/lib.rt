// What a chart file is stands in specs/, that reading and writing undo one another in proofs/. Here are its versions and its largest length.
#![tactic(auto)]

ghost use Rattle.std.specs.Prelude.{◌≡◌};
ghost use Rattle.model.specs.Version.{known_version, allows_spare, width_of};

// The bytes of the largest file that the reader accepts.
pub const LARGEST_FILE: usize = 62478;

// Whether there is such a version; where there is none, refusal 2 is given.
#[tactic(auto, unfolding(model::specs::Version::known_version))]
pub fn known_version(version: u64) -> bool
    ensures { result ≡ known_version version }
{
    version >= 1 && version <= 3
}

// Whether a chart of that version may have locations that no path reaches.
#[tactic(auto, unfolding(model::specs::Version::allows_spare))]
pub fn allows_spare(version: u8) -> bool
    ensures { result ≡ allows_spare version }
{
    version >= 3
}

// The bytes of a constant in a file of that version.
#[tactic(auto, using(model::proofs::Versions::width_other), unfolding(model::specs::Version::width_of))]
pub fn width_of(version: u8) -> u64
    ensures { result ≡ width_of version }
{
    if version == 1 { 2 } else { 4 }
}
