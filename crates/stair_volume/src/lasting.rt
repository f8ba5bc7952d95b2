//! Laws of what the commands do to the volumes of an array, whatever stops them.

ghost use Rattle.stair_volume.specs.Volumes.{CutsAreSafe, DoneIsFinished, VolumesReadAlike, VolumesStay};

/// States the laws of the volumes along a trace. It does nothing.
///
/// The trace follows the program of a command as a run of the machine. Along it the volumes are those from before or
/// those after the command; once the command is done, they are those after. A volume that is the same in two arrays
/// reads the same.
pub fn volume_laws()
    ensures stay { VolumesStay }
    ensures cuts { CutsAreSafe }
    ensures done { DoneIsFinished }
    ensures alike { VolumesReadAlike }
{}
