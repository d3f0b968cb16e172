// The constants of the definitions in rules/specs (Registers, Core, Scheduling, Work, Stack).
// A definition with a channel as argument is a base here, CHANNEL_REG + 3 * c; one with a level is two constants.

// ---- registers by number (01, Memory and registers)
pub const IPTR_REG: usize = 0;

pub const WDESC_REG: usize = 1;

pub const AREG: usize = 2;

pub const BREG: usize = 3;

pub const CREG: usize = 4;

pub const OREG: usize = 5;

pub const STATUS_REG: usize = 6;

// FptrReg[level] and BptrReg[level] of both levels; level 0 is high.
pub const FPTR_REG_HIGH: usize = 7;

pub const BPTR_REG_HIGH: usize = 8;

pub const FPTR_REG_LOW: usize = 9;

pub const BPTR_REG_LOW: usize = 10;

// ClockReg[level] and TNextReg[level] of both levels.
pub const CLOCK_REG_HIGH: usize = 11;

pub const CLOCK_REG_LOW: usize = 12;

pub const TNEXT_REG_HIGH: usize = 13;

pub const TNEXT_REG_LOW: usize = 14;

pub const PRESCALER_REG: usize = 15;

pub const SLICE_REG: usize = 16;

pub const FLAGS_REG: usize = 17;

// The three words of channel c stand at 3 * c from these.
pub const POINTER_REG: usize = 18;

pub const COUNT_REG: usize = 19;

pub const CHANNEL_REG: usize = 20;

// The hard channels are 0 to 8.
pub const LINK_CHANS: u32 = 9;

// ---- the bits of the flags, as masks

pub const CLOCKS_RUN: u32 = 1;

pub const T_ENABLED_HIGH: u32 = 2;

pub const T_ENABLED_LOW: u32 = 4;

pub const IDLE_FLAG: u32 = 8;

pub const HALTED_FLAG: u32 = 16;

// ---- the bits of a channel's flags, as masks; bits 8 to 15 are the byte held

pub const ACTIVE_BIT: u32 = 1;

pub const ENABLED_BIT: u32 = 2;

pub const HELD_BIT: u32 = 4;

pub const RUN_REQUEST: u32 = 8;

pub const READY_REQUEST: u32 = 16;

// ---- the bits of Status, as masks (000 1.2)

pub const GOTO_SNP_BIT: u32 = 2;

pub const MOVE_BIT: u32 = 8;

pub const HALT_ON_ERROR_BIT: u32 = 0x80;

pub const ERROR_FLAG: u32 = 0x8000_0000;

// The bits of Status that an interrupt keeps (DECISIONS 20).
pub const KEPT_STATUS: u32 = 0x8000_00FC;

// ---- parts of a process descriptor (000 1.3)

pub const WPTR_MASK: u32 = 0xFFFF_FFFE;

pub const PRIORITY_MASK: u32 = 1;

// ---- special values (000 1.4)

pub const MIN_INT: u32 = 0x8000_0000;

pub const NOT_PROCESS: u32 = 0x8000_0000;

pub const NO_LOW_PROCESS: u32 = 0x8000_0001;

pub const ENABLING: u32 = 0x8000_0001;

pub const WAITING: u32 = 0x8000_0002;

pub const READY: u32 = 0x8000_0003;

pub const TIME_SET: u32 = 0x8000_0001;

pub const TIME_NOT_SET: u32 = 0x8000_0002;

pub const NONE_SELECTED: u32 = 0xFFFF_FFFF;

pub const MACHINE_TRUE: u32 = 1;

pub const MACHINE_FALSE: u32 = 0;

// The word of -1, to subtract 1 by a wrapping sum.
pub const MINUS_ONE: u32 = 0xFFFF_FFFF;

// The ticks of a time slice (01, Links, clocks, slice).
pub const SLICE_LENGTH: u32 = 1024;

// ---- places of a workspace, in words from Wptr (000 1.3)

pub const IPTR_S: u32 = 0xFFFF_FFFF;

pub const LINK_S: u32 = 0xFFFF_FFFE;

pub const STATE_S: u32 = 0xFFFF_FFFD;

pub const POINTER_S: u32 = 0xFFFF_FFFD;

pub const TLINK_S: u32 = 0xFFFF_FFFC;

pub const TIME_S: u32 = 0xFFFF_FFFB;

// ---- special locations, as addresses (DECISIONS 40)

pub const PORT_BASE: u32 = 0x8000_0000;

pub const TIMER_BASE: u32 = 0x8000_0024;

pub const SAVE_BASE: u32 = 0x8000_002C;

pub const MEM_START: u32 = 0x8000_0048;

pub const MEM_START_WORD: usize = 18;

// The words of the save area, from SaveBase.
pub const WDESC_INT_SAVE: u32 = 0;

pub const IPTR_INT_SAVE: u32 = 1;

pub const AREG_INT_SAVE: u32 = 2;

pub const BREG_INT_SAVE: u32 = 3;

pub const CREG_INT_SAVE: u32 = 4;

pub const STATUS_INT_SAVE: u32 = 5;

pub const EREG_INT_SAVE: u32 = 6;

// ---- refusals of a plan by number (01, Answers by number), and the kinds of accesses

// Kept, point 1: the log of a plan has its refusal in numbers (plan::Refusal), and so have the definitions of rules/specs/Work.antt (a).
pub const HALTED: u32 = 6;

pub const IDLE: u32 = 7;

pub const NOT_READY: u32 = 8;

pub const UNLISTED: u32 = 9;

pub const OUTSIDE: u32 = 10;

pub const STOP: u32 = 11;

pub const JOURNAL_FULL: u32 = 12;

pub const KIND_FETCH: u32 = 1;

pub const KIND_LOAD: u32 = 2;

pub const KIND_STORE: u32 = 3;
