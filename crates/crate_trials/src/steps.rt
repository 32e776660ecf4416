//! What is done to stores step by step, and how each step has to come out. A line is a step: a word, what it is of, and then
//! the bytes, which end with the line.
//!
//! | Step | What holds |
//! |---|---|
//! | `put PATH BYTES` | the bytes are put at the path |
//! | `get PATH BYTES` | these stand at the path |
//! | `part PATH OFFSET LENGTH BYTES` | from this offset on and of so many bytes at most, these do |
//! | `begin PATH` | the beginning of what stands at the path is read, if anything does |
//! | `none PATH` | nothing stands at the path, nor a part of it |
//! | `refused PATH` | a put, a get and a get of a part fail there, and three faults are counted |
//! | `faults COUNT` | so many calls of the store have failed |
//! | `stage NUMBER BYTES` | the bytes are staged by the number |
//! | `unstaged NUMBER BYTES` | they are not, and come back |
//! | `staged PATH` | of what is staged and was not put yet, the first is put at the path |
//! | `unput PATH` | it is not, since that fails |
//! | `clear NUMBER` | what is left of a number is removed |
//! | `missing FILE` | there is no such file |
//! | `file FILE BYTES` | the file has these bytes |
//! | `write FILE BYTES`, `folder NAME`, `remove FILE`, `rename NAME NEW`, `link TO NAME` | the system does it |
//! | `clean` | the folder of the store is removed, if there is one |

/// What is put is held, whole and in parts. A beginning that was read is of its own path alone, and does not keep what a put
/// replaces.
pub const HOLDS: &str = "none map/0/0/0/0/0/0.meta
put map/0/0/0/0/0/0.meta abcdef
put farm.saved
get map/0/0/0/0/0/0.meta abcdef
get farm.saved
part map/0/0/0/0/0/0.meta 0 6 abcdef
part map/0/0/0/0/0/0.meta 2 3 cde
part map/0/0/0/0/0/0.meta 4 4294967295 ef
part map/0/0/0/0/0/0.meta 6 1
part map/0/0/0/0/0/0.meta 18446744073709551615 1
part map/0/0/0/0/0/0.meta 1 0
part map/0/0/0/0/0/0.meta 0 1 a
part farm.saved 1 1
part map/0/0/0/0/0/0.meta 0 1 a
put map/0/0/0/0/0/0.meta xy
part map/0/0/0/0/0/0.meta 1 1 y
get map/0/0/0/0/0/0.meta xy
get farm.saved
faults 0
get map/0/0/0/0/0/0.meta xy";

/// Nothing is put below a file, or where a folder stands, and nothing is left of a put, which is written beside and renamed.
pub const THE_SYSTEM_REFUSES: &str = "put one one
missing tiles/one.new
refused one/below_a_file
folder tiles/folder
refused folder
missing tiles/folder.new
get one one";

/// Each staged file takes the place of what its path had, and nothing is left of it: the staged file itself is put, and a
/// beginning that was read before is not kept.
pub const STAGED_IS_PUT: &str = "none nothing
stage 7 first
begin map/one
staged map/one
missing tiles/.new/7
part map/one 1 786703 irst
clear 7
get map/one first
stage 7 second
begin map/one
staged map/one
missing tiles/.new/7
part map/one 1 786703 econd
clear 7
get map/one second
faults 0
missing tiles/.new/7
missing tiles/.new/7.old";

/// Of two that are staged at once each is put at its own path, the earlier one first: were their files one, it would put the
/// bytes of the later one, whose number is 7 in its last 32 bits.
pub const TWO_ARE_STAGED: &str = "none nothing
stage 7 seven
stage 4294967303 far
staged map/7
staged map/far
get map/7 seven
get map/far far";

/// Where the number has a file, nothing is staged, and the file stays as it is.
pub const A_NUMBER_IS_THERE: &str = "none nothing
stage 7 earlier
unstaged 7 later
file tiles/.new/7 earlier";

/// What a put of a staged file replaces stays until the clear; where it cannot be kept it is replaced all the same.
pub const REPLACED_IS_KEPT: &str = "put one one
stage 7 two
staged one
file tiles/.new/7.old one
clear 7
folder tiles/.new/8.old
stage 8 three
staged one
missing tiles/.new/8
get one three";

/// What an earlier run left of its staging is removed by the first call; without it nothing is staged.
pub const LEFT_IS_REMOVED: &str = "folder tiles/.new
write tiles/.new/3 left
write tiles/.new/70.old left
unstaged 4 early
missing tiles/.new/4
missing tiles/.lock
none nothing
missing tiles/.new/3
missing tiles/.new/70.old
stage 7 first
begin map/one
staged map/one
missing tiles/.new/7
part map/one 1 786703 irst
clear 7
get map/one first";

/// A file that was cut to nothing is read anew from its beginning, once it has bytes again; so is one whose beginning was
/// read.
pub const A_CUT_FILE_IS_READ_ANEW: &str = "none nothing
folder tiles/map/0/0/0/0/0
write tiles/map/0/0/0/0/0/0.meta
part map/0/0/0/0/0/0.meta 0 4
write tiles/other whole
rename tiles/other tiles/map/0/0/0/0/0/0.meta
part map/0/0/0/0/0/0.meta 0 4 whol
write tiles/other later
rename tiles/other tiles/map/0/0/0/0/0/0.meta
part map/0/0/0/0/0/0.meta 4 4 e
part map/0/0/0/0/0/0.meta 0 4 late";

/// Where the folder of what is staged is a link, what it leads to stays.
pub const A_LINKED_FOLDER_IS_NOT_EMPTIED: &str = "folder tiles/other
write tiles/other/kept mine
link other tiles/.new
none nothing
get other/kept mine";

/// Where its staged file is gone the bytes are put all the same, in place of those before.
pub const FILE_IS_GONE: &str = "none nothing
put one one
stage 8 two
remove tiles/.new/8
staged one
get one two";

/// At a path that is a folder nothing is put, and the folder stays.
pub const A_PUT_FAILS: &str = "none nothing
put map/one one
stage 9 two
unput map
faults 1
clear 9
get map/one one
missing tiles/.new/9
missing tiles/map.new";

/// No folder can be made where a file stands.
pub const A_STAGING_FAILS: &str = "none nothing
clean
write tiles a file
unstaged 9 bytes
remove tiles";

/// One store has the folder,
pub(crate) const OURS_BEGINS: &str = "put one one
stage 7 two";

/// and while it has it another one fails, stages nothing and clears nothing:
pub(crate) const THEIRS_FAILS: &str = "refused one
unstaged 8 bytes
clear 7";

/// what the first has staged stood there still, and is put.
pub(crate) const OURS_GOES_ON: &str = "staged one
missing tiles/.new/7
faults 0";

/// What the first one put is there for the second, once the first is gone.
pub(crate) const THEIRS_GOES_ON: &str = "get one two";

/// What stands there for the steps that do not hold:
pub(crate) const BEFORE_WRONG: &str = "put one one
";

/// Steps that do not hold, one at least of each word that can fail, with a line of no word.
pub(crate) const WRONG: &str = "put ../one one
get one two
part one 0 2 ne
part one x 2 on
none one
faults 9
faults
refused one
stage x one
unstaged 5 one
staged one
unput one
clear x
missing tiles/one
file tiles/one one
write tiles/none/one one
folder tiles/one
remove tiles/none
rename tiles/none tiles/two
link one tiles/one
puts one one

";
