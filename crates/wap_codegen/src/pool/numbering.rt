//! What the names in a function mean, and the constants of its unit, by their numbers.
ghost use Rattle.std.specs.Prelude.{◌≡◌, IfOk, OnOk, OnErr, [], length, map};
ghost use Rattle.wap_grammar.specs.declared.program.expression.Literal.TheVariants as literal;
ghost use Rattle.wap_scope.specs.Scoped.{IsScoped};
ghost use Rattle.wap_scope.specs.accepted.Known.{variables};
ghost use Rattle.wap_meaning.specs.Names.{variable_at, function_at, url_of};
ghost use Rattle.wap_meaning.specs.coding.Constants.{number_of, text_number, url_number};
ghost use Rattle.wap_meaning.specs.coding.Constants.{with_literal};
ghost use Rattle.wap_meaning.specs.coding.Constants.{constant_for};
ghost use Rattle.wap_meaning.specs.compiled.Pool.{pool};
ghost use Rattle.wap_codegen.specs.pool.Names.{names_of, AreOnce};
ghost use Rattle.wap_codegen.specs.pool.inside.Contents.{literal_of};

use crate::pool::constants::constants_of;
use crate::pool::content::Content;
use crate::pool::named::Named;
use crate::pool::outside::{functions_of, urls_of};
use crate::pool::programs::add_constants;
use crate::pool::variables::variables_of;
use indexmap::{IndexMap, IndexSet};
use std::alloc::Global;
use std::marker::Model;
use wap_base::{NoMemory, Rows, Text};
use wap_grammar::program::{Function, Id, Program};
use wap_unit::Constant;

/// What the names in a function mean, and the constants of its unit. A contract sees both.
#[derive(Drop)]
pub struct Numbering {
    variables: Named,
    functions: Named,
    urls: IndexMap<Text, Text>,
    pool: IndexSet<Content>,
}

impl Model for Numbering {
    ghost use Rattle.std.specs.Prelude.{map};
    ghost use Rattle.wap_meaning.specs.coding.Constants.{Numbers};
    ghost use Rattle.wap_codegen.specs.pool.inside.Contents.{literal_of};

    ghost Value = { Numbers };

    ghost view = { λ numbering. record {
      names = record {
        variables = numbering.variables;
        functions = numbering.functions;
        urls = numbering.urls.entries;
      };
      pool = map literal_of numbering.pool.keys;
    } };
}

impl Numbering {
    /// What the names of a program mean outside of its functions, and the constants of its unit.
    pub fn of(alloc: Global, program: &Program) -> Result<Numbering, NoMemory>
        requires { IsScoped program.now }
        ensures names { IfOk result (λ numbering. numbering.names ≡ names_of program.now) }
        ensures pool { IfOk result (λ numbering. numbering.pool ≡ pool program.now) }
    {
        let mut numbering = Numbering::without_constants(alloc, program)?;
        add_constants(alloc, &mut numbering, program)?;
        Ok(numbering)
    }

    /// What the names of a program mean outside of its functions, and no constants yet.
    fn without_constants(alloc: Global, program: &Program) -> Result<Numbering, NoMemory>
        requires { IsScoped program.now }
        ensures names { IfOk result (λ numbering. numbering.names ≡ names_of program.now) }
        ensures pool { IfOk result (λ numbering. numbering.pool ≡ []) }
    {
        Ok(Numbering {
            variables: Named::new(alloc),
            functions: functions_of(alloc, program.functions.as_slice())?,
            urls: urls_of(alloc, program.uses.as_slice())?,
            pool: IndexSet::new(alloc),
        })
    }

    /// Goes on to a function: its variables are known, and those of no other. When out of memory
    /// those of the function before stay known.
    pub fn enter(&mut self, alloc: Global, function: &Function) -> Result<(), NoMemory>
        requires { AreOnce (variables function.now) }
        ensures variables { OnOk result (self.new.names.variables ≡ variables function.now) }
        ensures functions { self.new.names.functions ≡ self.old.names.functions }
        ensures urls { self.new.names.urls ≡ self.old.names.urls }
        ensures pool { self.new.pool ≡ self.old.pool }
        ensures kept { OnErr result (self.new ≡ self.old) }
    {
        self.variables = variables_of(alloc, function)?;
        Ok(())
    }

    /// How many variables the function has.
    pub fn variable_count(&self) -> usize
        ensures { result ≡ length self.now.names.variables }
    {
        self.variables.len()
    }

    /// How many constants there are.
    pub fn constant_count(&self) -> usize
        ensures { result ≡ length self.now.pool }
    {
        self.pool.len()
    }

    /// The constants as a unit has them.
    pub fn constants(&self, alloc: Global) -> Result<Rows<Constant>, NoMemory>
        ensures { IfOk result (λ constants. constants ≡ map constant_for self.now.pool) }
    {
        constants_of(alloc, self.pool.as_slice())
    }

    /// The number of a variable.
    pub fn variable(&self, variable: &Id) -> usize
        ensures { result ≡ variable_at self.now.names variable.now }
    {
        self.variables.place(&variable.name)
    }

    /// The number of a function of the program.
    pub fn function(&self, function: &Id) -> usize
        ensures { result ≡ function_at self.now.names function.now }
    {
        self.functions.place(&function.name)
    }

    /// The number of a constant.
    fn content(&self, content: &Content) -> usize
        ensures { result ≡ number_of self.now (literal_of content.now) }
    {
        self.pool.get_index_of(content).unwrap_or(self.pool.len())
    }

    /// The number of an integer.
    pub fn integer(&self, integer: i32) -> usize
        ensures { result ≡ number_of self.now (literal.Int integer) }
    {
        self.content(&Content::Integer(integer))
    }

    /// The number of a text.
    pub fn text(&self, alloc: Global, text: &Text) -> Result<usize, NoMemory>
        ensures { IfOk result (λ number. number ≡ text_number self.now text.now) }
    {
        let content = Content::Text(text.copy(alloc)?);
        Ok(self.content(&content))
    }

    /// The URL that the name of a unit stands for.
    fn url_of(&self, alloc: Global, unit: &Id) -> Result<Text, NoMemory>
        ensures { IfOk result (λ url. url ≡ url_of unit.now.name self.now.names.urls) }
    {
        match self.urls.get(&unit.name) {
            Some(url) => url.copy(alloc),
            None => Ok(Text::new(alloc)),
        }
    }

    /// The number of the URL that the name of a unit stands for.
    pub fn url(&self, alloc: Global, unit: &Id) -> Result<usize, NoMemory>
        ensures { IfOk result (λ number. number ≡ url_number self.now unit.now) }
    {
        let url = self.url_of(alloc, unit)?;
        self.text(alloc, &url)
    }

    /// Adds a constant, if it isn't there yet.
    fn add_content(&mut self, content: Content) -> Result<(), NoMemory>
        ensures names { OnOk result (self.new.names ≡ self.old.names) }
        ensures pool { OnOk result (self.new.pool
            ≡ with_literal self.old.pool (literal_of content)) }
    {
        self.pool.insert(content)?;
        Ok(())
    }

    /// Adds an integer to the constants, if it isn't there yet.
    pub(crate) fn add_integer(&mut self, integer: i32) -> Result<(), NoMemory>
        ensures names { OnOk result (self.new.names ≡ self.old.names) }
        ensures pool { OnOk result (self.new.pool
            ≡ with_literal self.old.pool (literal.Int integer)) }
    {
        self.add_content(Content::Integer(integer))
    }

    /// Adds a text to the constants, if it isn't there yet.
    pub(crate) fn add_text(&mut self, alloc: Global, text: &Text) -> Result<(), NoMemory>
        ensures names { OnOk result (self.new.names ≡ self.old.names) }
        ensures pool { OnOk result (self.new.pool
            ≡ with_literal self.old.pool (literal.Str text.now)) }
    {
        self.add_content(Content::Text(text.copy(alloc)?))
    }

    /// Adds the URL that the name of a unit stands for to the constants, if it isn't there yet.
    pub(crate) fn add_url(&mut self, alloc: Global, unit: &Id) -> Result<(), NoMemory>
        ensures names { OnOk result (self.new.names ≡ self.old.names) }
        ensures pool { OnOk result (self.new.pool
            ≡ with_literal self.old.pool (literal.Str (url_of unit.now.name self.old.names.urls))) }
    {
        let url = self.url_of(alloc, unit)?;
        self.add_content(Content::Text(url))
    }
}
