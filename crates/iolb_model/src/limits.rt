//! The limits of programs and certificates, by name. Widths that follow from them are computed from these names.

/// Loops around a statement, at most.
pub const LOOPS: usize = 6;

/// Rows of the guards around a statement, at most.
pub const GUARDS: usize = 16;

/// Parameters of a program, at most.
pub const PARAMETERS: usize = 6;

/// Statements of a program, at most.
pub const STATEMENTS: usize = 32;

/// Arrays of a program, at most.
pub const ARRAYS: usize = 128;

/// Subscripts of an array, at most.
pub const SUBSCRIPTS: u8 = 4;

/// Reads of a statement, at most.
pub const READS: usize = 32;

/// Assumption rows of a program, at most.
pub const ASSUMPTIONS: usize = 32;

/// Brackets and braces that are open at once, at most.
pub const BRACKETS: u8 = 64;

/// Bytes of a name, at most.
pub const NAME_BYTES: usize = 64;

/// Numbers of forms in programs and certificates, and entries of matrices, are of size below this.
pub const NUMBER_SIZE: u128 = 1 << 20;

/// Multipliers are below this.
pub const MULTIPLIER_SIZE: u64 = 1 << 48;

/// Numbers and denominators of certificates' polynomials, and numbers of forms that are computed, are of size below this.
pub const COEFFICIENT_SIZE: u128 = 1 << 62;

/// Numbers of forms into which forms are put for variables are of size below this.
pub const PUT_SIZE: u128 = 1 << 60;

/// The measure of a polynomial is below this.
pub const MEASURE: u128 = 1 << 126;

/// The measures of two polynomials that are added have a product below this.
pub const SUM_MEASURE: u128 = 1 << 125;

/// Exponents of a variable, at most.
pub const EXPONENT: u8 = 8;

/// The values of parameters on the command line are of size below this.
pub const VALUE_SIZE: u128 = 1 << 40;

/// Rows of a system, at most.
pub const ROWS: usize = 128;

/// Variables of a form, at most.
pub const VARIABLES: usize = 24;

/// Variables of a nest, and rows and columns of a matrix, at most.
pub const NEST_VARIABLES: usize = 6;

/// Tests on the way to a leaf of a source tree or of a walk, at most.
pub const TREE_TESTS: u8 = 16;

/// Leaves of a source tree, and claims at leaves in a walk, at most.
pub const TREE_LEAVES: u8 = 64;

/// Rows of a walk's region, at most.
pub const REGION_ROWS: usize = 16;

/// The scale of an inverse matrix, at most.
pub const SCALE: u32 = 1 << 20;

/// Terms of a branch, at most.
pub const TERMS: usize = 32;

/// Terms of an opening branch, at most.
pub const OPENING_TERMS: usize = 16;

/// Branches of a certificate, at most.
pub const BRANCHES: usize = 8;

/// Families of a partition term, at most.
pub const FAMILIES: usize = 6;

/// Credited nests of a partition term, at most.
pub const CREDITS: usize = 4;

/// How often the families' sets cover each coordinate, and the weight of a family, at most.
pub const WEIGHT: u8 = 12;

/// The weights of a partition term's families together, at most.
pub const WEIGHTS: u8 = 24;

/// The events of a stretch for each red pebble, at most.
pub const STRETCH: u8 = 64;

/// The events of a stretch beside these, at most.
pub const STRETCH_MORE: u32 = 1 << 20;

/// Keys of a statement in a schedule, at most.
pub const SCHEDULE_KEYS: usize = 8;

/// The divisor of a schedule's key, at most.
pub const DIVISOR: u32 = 1 << 20;

/// The bytes of a program's file, at most.
pub const PROGRAM_BYTES: usize = 4 << 20;

/// The bytes of a certificate's file, at most.
pub const CERTIFICATE_BYTES: usize = 64 << 20;

/// The bytes of a schedule's file, at most.
pub const SCHEDULE_BYTES: usize = 1 << 20;

/// Processors of a parallel machine, at most.
pub const PROCESSORS: u32 = 1 << 20;

/// Fast levels of a memory, at most.
pub const LEVELS: usize = 4;

/// The bytes of a file of moves, at most.
pub const MOVES_BYTES: usize = 64 << 20;

/// Matrix products of a sample program, at most.
pub const PRODUCTS: u8 = 32;
