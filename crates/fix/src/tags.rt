// The tags that this market reads or writes, by their FIX names.
pub const ACCOUNT: u64 = 1;

pub const AVG_PX: u64 = 6;

pub const BEGIN_STRING: u64 = 8;

pub const BODY_LENGTH: u64 = 9;

pub const CHECK_SUM: u64 = 10;

pub const CL_ORD_ID: u64 = 11;

pub const CUM_QTY: u64 = 14;

pub const EXEC_ID: u64 = 17;

pub const EXEC_TRANS_TYPE: u64 = 20;

pub const HANDL_INST: u64 = 21;

pub const LAST_PX: u64 = 31;

pub const LAST_SHARES: u64 = 32;

pub const MSG_SEQ_NUM: u64 = 34;

pub const MSG_TYPE: u64 = 35;

pub const ORDER_ID: u64 = 37;

pub const ORDER_QTY: u64 = 38;

pub const ORD_STATUS: u64 = 39;

pub const ORD_TYPE: u64 = 40;

pub const ORIG_CL_ORD_ID: u64 = 41;

pub const PRICE: u64 = 44;

pub const REF_SEQ_NUM: u64 = 45;

pub const RULE_80A: u64 = 47;

pub const SENDER_COMP_ID: u64 = 49;

pub const SENDER_SUB_ID: u64 = 50;

pub const SENDING_TIME: u64 = 52;

pub const SIDE: u64 = 54;

pub const SYMBOL: u64 = 55;

pub const TARGET_COMP_ID: u64 = 56;

pub const TIME_IN_FORCE: u64 = 59;

pub const TRANSACT_TIME: u64 = 60;

pub const CXL_REJ_REASON: u64 = 102;

pub const ORD_REJ_REASON: u64 = 103;

pub const CLIENT_ID: u64 = 109;

pub const EXEC_TYPE: u64 = 150;

pub const LEAVES_QTY: u64 = 151;

pub const REF_TAG_ID: u64 = 371;

pub const REF_MSG_TYPE: u64 = 372;

pub const SESSION_REJECT_REASON: u64 = 373;

pub const CONTRA_BROKER: u64 = 375;

pub const EXEC_RESTATEMENT_REASON: u64 = 378;

pub const NO_CONTRA_BROKERS: u64 = 382;

pub const PRICE_TYPE: u64 = 423;

pub const CXL_REJ_RESPONSE_TO: u64 = 434;

pub const LAST_LIQUIDITY_IND: u64 = 851;

pub const TRD_MATCH_ID: u64 = 880;

pub const ORDER_CLASSIFICATION: u64 = 8060;
