//! What may be sent to threads and shared by them, of the types of texts, devices, URLs, variables,
//! keys, values, units, machines, sources, documents, cards and runs.
use std::marker::{Send, Sync};
use wap_asm::{Form, PlaceFault};
use wap_base::{Bytes, Limits, Name, NameFault, NoMemory, Part, ReadFault, Rows, RunErr, Text};
use wap_cardrules::{Chosen, Entered, Event, Task};
use wap_cli::Status;
use wap_deck::good::GoodDeck;
use wap_devices::{Failed, Fetched, MemSink, MemSource, MemStore, NoGate, StoreErr};
use wap_execution::{Dialog, Fatal, HostOut};
use wap_keys::{Ending, Key, KeyFault};
use wap_layout::buffer::Lines;
use wap_layout::{Flow, Mode};
use wap_lex::{Kind, LexFault, Token};
use wap_libs::{Gen, LibFault, LibOut};
use wap_machine::{Machine, Outcome, Waiting};
use wap_mask::{Class, Mask, Symbol};
use wap_parse::invocation::Invocation;
use wap_parse::{Expr, Function, ParseFault, Program, Stmt, Use};
use wap_push::{Inbox, Indication, PushFault};
use wap_scope::{ScopeFault, Scoped};
use wap_session::SessionFault;
use wap_tokens::markup::{Attr, Deck, Document, Element, Kid, Piece};
use wap_unit::{Code, Constant, Instr, InstrFault, OpName, Pragma, Row, Unit, UnitFault};
use wap_url::{Access, Url, UrlFault};
use wap_value::{BinOp, UnOp, Value, ValueFault};
use wap_vars::{VarFault, Vars};
use wap_verify::{Step, Verified, VerifyFault, Way};
use wap_wbxml::DocFault;
use wap_world::site::Page;

fn crosses<T: Send + Sync>() {}

fn base_crosses() {
    crosses::<Text>();
    crosses::<Bytes>();
    crosses::<Rows<Text>>();
    crosses::<Name>();
    crosses::<Part>();
    crosses::<Limits>();
    crosses::<MemStore>();
    crosses::<MemSource>();
    crosses::<MemSink>();
    crosses::<NoGate>();
    crosses::<Fetched>();
}

fn faults_cross() {
    crosses::<NoMemory>();
    crosses::<Failed>();
    crosses::<RunErr>();
    crosses::<NameFault>();
    crosses::<ReadFault>();
    crosses::<StoreErr>();
    crosses::<KeyFault>();
    crosses::<UrlFault>();
    crosses::<VarFault>();
}

fn values_cross() {
    crosses::<Url>();
    crosses::<Access>();
    crosses::<Key>();
    crosses::<Ending>();
    crosses::<Vars>();
    crosses::<Value>();
    crosses::<Invocation>();
    crosses::<UnOp>();
    crosses::<BinOp>();
    crosses::<ValueFault>();
    crosses::<Gen>();
    crosses::<LibOut>();
    crosses::<LibFault>();
}

fn units_cross() {
    crosses::<Unit>();
    crosses::<Form>();
    crosses::<PlaceFault>();
    crosses::<Constant>();
    crosses::<Pragma>();
    crosses::<Code>();
    crosses::<UnitFault>();
    crosses::<Instr>();
    crosses::<InstrFault>();
    crosses::<Row>();
    crosses::<OpName>();
    crosses::<Verified>();
    crosses::<VerifyFault>();
    crosses::<Step>();
    crosses::<Way>();
}

fn machines_cross() {
    crosses::<Machine>();
    crosses::<Waiting>();
    crosses::<Outcome>();
    crosses::<Dialog>();
    crosses::<Fatal>();
    crosses::<HostOut>();
}

fn sources_cross() {
    crosses::<Token>();
    crosses::<Kind>();
    crosses::<LexFault>();
    crosses::<Expr>();
    crosses::<Use>();
    crosses::<ParseFault>();
    crosses::<ScopeFault>();
}

fn programs_cross() {
    crosses::<Stmt>();
    crosses::<Function>();
    crosses::<Program>();
}

fn scoped_crosses() {
    crosses::<Scoped>();
}

fn documents_cross() {
    crosses::<Document>();
    crosses::<Element>();
    crosses::<wap_tokens::markup::Token>();
    crosses::<Attr>();
    crosses::<Kid>();
    crosses::<Piece>();
    crosses::<DocFault>();
    crosses::<Deck>();
    crosses::<GoodDeck>();
}

fn cards_cross() {
    crosses::<Flow>();
    crosses::<Lines>();
    crosses::<Mode>();
    crosses::<Mask>();
    crosses::<Symbol>();
    crosses::<Class>();
    crosses::<Task>();
    crosses::<Event>();
    crosses::<Entered>();
    crosses::<Chosen>();
}

fn runs_cross() {
    crosses::<Indication>();
    crosses::<PushFault>();
    crosses::<Inbox>();
    crosses::<Page>();
    crosses::<Status>();
    crosses::<SessionFault>();
}

/// Stands only where each type that is named here may be sent to threads and shared by them.
pub fn all_cross() {
    base_crosses();
    faults_cross();
    values_cross();
    units_cross();
    machines_cross();
    sources_cross();
    programs_cross();
    scoped_crosses();
    documents_cross();
    cards_cross();
    runs_cross();
}
