//! How calls came out.

ghost use Rattle.std.specs.Prelude.{◌≡◌, ◌++◌, OnOk};
ghost use Rattle.run_report.specs.EndText.{out_text, outs_text, returned_text, values_text, end_text};
ghost use Rattle.run_report.specs.Views.{func_of};

use crate::lines::Lines;
use refuse_lines::put_refuse;
use script_session::End;
use std::alloc::AllocError;
use tars_model::{FuncDesc, Param, Schema, Ty, Value};
use value_text::put_value;

impl Lines {
    #[tactic(auto, unfolding(crate::specs::EndText::out_text))]
    fn put_out(&mut self, schema: &Schema, param: &Param, value: &Value) -> Result<(), AllocError>
        ensures { OnOk result (self.new ≡ self.old ++ out_text schema.now param.now value.now) }
    {
        self.text.word(" ")?;
        self.text.put(param.name.as_slice())?;
        self.text.word("=")?;
        put_value(value, &mut self.text, schema, &param.ty)
    }

    /// Adds the parameters that come back, each with its value.
    fn put_outs(
        &mut self,
        schema: &Schema,
        params: &[Param],
        values: &[Value],
    ) -> Result<(), AllocError>
        ensures { OnOk result (self.new ≡ self.old ++ outs_text schema.now params.now values.now) }
    {
        let mut rest = values;
        for param in params {
            let [value, after @ ..] = rest else {
                return Ok(());
            };
            if param.out {
                self.put_out(schema, param, value)?;
                rest = after;
            }
        }
        Ok(())
    }

    fn put_returned(
        &mut self,
        schema: &Schema,
        ret: &Option<Ty>,
        params: &[Param],
        values: &[Value],
    ) -> Result<(), AllocError>
        ensures { OnOk result (self.new ≡ self.old ++ returned_text schema.now ret.now params.now values.now) }
    {
        let Some(ty) = ret else {
            self.text.word("void")?;
            return self.put_outs(schema, params, values);
        };
        let [value, outs @ ..] = values else {
            return Ok(());
        };
        put_value(value, &mut self.text, schema, ty)?;
        self.put_outs(schema, params, outs)
    }

    /// Adds the values of a function's reply.
    #[tactic(auto, unfolding(crate::specs::EndText::values_text))]
    fn put_values(
        &mut self,
        schema: &Schema,
        func: Option<&FuncDesc>,
        values: &[Value],
    ) -> Result<(), AllocError>
        ensures { OnOk result (self.new ≡ self.old ++ values_text schema.now (func_of func.entry) values.now) }
    {
        match func {
            Some(func) => self.put_returned(schema, &func.ret, func.params.as_slice(), values),
            None => Ok(()),
        }
    }

    /// Adds how a call of a function came out.
    #[tactic(auto, unfolding(crate::specs::EndText::end_text))]
    pub fn put_end(
        &mut self,
        schema: &Schema,
        func: Option<&FuncDesc>,
        end: &End,
    ) -> Result<(), AllocError>
        ensures { OnOk result (self.new ≡ self.old ++ end_text schema.now (func_of func.entry) end.now) }
    {
        match end {
            End::Value { values, .. } => {
                self.text.word("value ")?;
                self.put_values(schema, func, values.as_slice())
            }
            End::Code { code, .. } => self.text.show(format_args!("code {code}")),
            End::Undecoded { refuse, .. } => {
                self.text.word("code -12 ")?;
                put_refuse(&mut self.text, refuse)
            }
            End::Closed => self.text.word("closed"),
            End::Refused(why) => self.text.show(format_args!("refused {why}")),
        }
    }
}
