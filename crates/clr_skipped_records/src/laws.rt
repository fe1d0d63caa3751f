//! The law of records without faults, proved by a function that calls another law.

ghost use Rattle.clr_skipped_records.specs.SoundRecords.{SoundRecordsLaw, SoundTextsLaw};

use clr_layer_faults::faults_tell_refusals;

/// No fault is found in the records of a layer that have none, and a text of them is read as rows, unless no key is left for one that has none.
pub fn sound_records_stay_sound()
    ensures records { SoundRecordsLaw }
    ensures texts { SoundTextsLaw }
{
    faults_tell_refusals();
}
