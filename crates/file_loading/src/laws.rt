//! Laws of what is loaded. Each function does nothing: its contract is the law.
ghost use Rattle.brep_file.specs.declared.file.File.{File};
ghost use Rattle.brep_file.specs.PlainRecords.{plain_records, plain_root};
ghost use Rattle.brep_file.specs.Sound.{IsSound};
ghost use Rattle.expansion_laws.specs.Expansion.{IsFile};
ghost use Rattle.file_loading.specs.Staying.{LoadingStays};

/// Under a table of words and in a pool that have grown, a file that is loaded stays loaded, and the numbers of words,
/// nodes and uses stand for what they stood for.
pub fn loading_stays()
    ensures { LoadingStays }
{}

/// In a sound file each use names a record above its own, and the root use names a record.
pub fn sound_files_have_trees()
    ensures { (f : File) → IsSound f → IsFile (plain_records f) (plain_root f) }
{}
