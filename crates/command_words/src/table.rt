// The commands, a row each. LINK is `[--text A] [--data A] [--stack-low A] [--stack A] [--extensions WORD]
// [--fixed NAMES]`: where the program lies, what the chip has, and which sections of code stay as they are.

/// An option, which takes one value: its name, and whether it must be given.
pub struct OptionSyntax {
    pub name: &'static str,
    pub required: bool,
}

/// A positional word, which must be given: its name, and whether there may be several of them.
pub struct PositionalSyntax {
    pub name: &'static str,
    pub several: bool,
}

/// A command: its name, its options in any order, and its positional words in theirs.
pub struct Syntax {
    pub name: &'static str,
    pub options: &'static [OptionSyntax],
    pub positionals: &'static [PositionalSyntax],
}

const TEXT: OptionSyntax = OptionSyntax {
    name: "text",
    required: false,
};

const DATA: OptionSyntax = OptionSyntax {
    name: "data",
    required: false,
};

const STACK_LOW: OptionSyntax = OptionSyntax {
    name: "stack-low",
    required: false,
};

const STACK: OptionSyntax = OptionSyntax {
    name: "stack",
    required: false,
};

const EXTENSIONS: OptionSyntax = OptionSyntax {
    name: "extensions",
    required: false,
};

const FIXED: OptionSyntax = OptionSyntax {
    name: "fixed",
    required: false,
};

const OUT: OptionSyntax = OptionSyntax {
    name: "out",
    required: true,
};

const CERT: OptionSyntax = OptionSyntax {
    name: "cert",
    required: true,
};

const DEVICES: OptionSyntax = OptionSyntax {
    name: "devices",
    required: false,
};

const PLAN: OptionSyntax = OptionSyntax {
    name: "plan",
    required: false,
};

const SHARED_PLAN: OptionSyntax = OptionSyntax {
    name: "plan",
    required: true,
};

const STEPS: OptionSyntax = OptionSyntax {
    name: "steps",
    required: false,
};

const PREFIX: OptionSyntax = OptionSyntax {
    name: "out",
    required: false,
};

const OBJECTS: PositionalSyntax = PositionalSyntax {
    name: "OBJ",
    several: true,
};

const IMAGE: PositionalSyntax = PositionalSyntax {
    name: "IMAGE",
    several: false,
};

const CERTIFICATE: PositionalSyntax = PositionalSyntax {
    name: "CERT",
    several: false,
};

const NUMBER: PositionalSyntax = PositionalSyntax {
    name: "NUMBER",
    several: false,
};

const FUNCTIONS: PositionalSyntax = PositionalSyntax {
    name: "FUNCTIONS",
    several: false,
};

// `plain LINK --out OUT OBJ...`
const PLAIN: Syntax = Syntax {
    name: "plain",
    options: &[TEXT, DATA, STACK_LOW, STACK, EXTENSIONS, FIXED, OUT],
    positionals: &[OBJECTS],
};

// `zc LINK --out OUT --cert CERT OBJ...`
const ZC: Syntax = Syntax {
    name: "zc",
    options: &[TEXT, DATA, STACK_LOW, STACK, EXTENSIONS, FIXED, OUT, CERT],
    positionals: &[OBJECTS],
};

// `run LINK [--devices DEVICES] [--plan PLAN] [--steps N] IMAGE`
const RUN: Syntax = Syntax {
    name: "run",
    options: &[
        TEXT, DATA, STACK_LOW, STACK, EXTENSIONS, FIXED, DEVICES, PLAN, STEPS,
    ],
    positionals: &[IMAGE],
};

// `trace LINK [--devices DEVICES] [--steps N] OBJ...`
const TRACE: Syntax = Syntax {
    name: "trace",
    options: &[
        TEXT, DATA, STACK_LOW, STACK, EXTENSIONS, FIXED, DEVICES, STEPS,
    ],
    positionals: &[OBJECTS],
};

// `check CERT`
const CHECK: Syntax = Syntax {
    name: "check",
    options: &[],
    positionals: &[CERTIFICATE],
};

// `make [--out PREFIX] NUMBER FUNCTIONS`
const MAKE: Syntax = Syntax {
    name: "make",
    options: &[PREFIX],
    positionals: &[NUMBER, FUNCTIONS],
};

// `gc LINK --out PREFIX OBJ...`
const GC: Syntax = Syntax {
    name: "gc",
    options: &[TEXT, DATA, STACK_LOW, STACK, EXTENSIONS, FIXED, OUT],
    positionals: &[OBJECTS],
};

// `merge LINK --out PREFIX OBJ...`
const MERGE: Syntax = Syntax {
    name: "merge",
    options: &[TEXT, DATA, STACK_LOW, STACK, EXTENSIONS, FIXED, OUT],
    positionals: &[OBJECTS],
};

// `share LINK --out OUT --plan PLAN [--steps N] OBJ...`
const SHARE: Syntax = Syntax {
    name: "share",
    options: &[
        TEXT,
        DATA,
        STACK_LOW,
        STACK,
        EXTENSIONS,
        FIXED,
        OUT,
        SHARED_PLAN,
        STEPS,
    ],
    positionals: &[OBJECTS],
};

// `list LINK IMAGE`
const LIST: Syntax = Syntax {
    name: "list",
    options: &[TEXT, DATA, STACK_LOW, STACK, EXTENSIONS, FIXED],
    positionals: &[IMAGE],
};

/// The commands.
pub static COMMANDS: [Syntax; 10] = [PLAIN, ZC, RUN, TRACE, CHECK, MAKE, GC, MERGE, SHARE, LIST];
